// Equations and variables that are paired, short sets and blocks of models that are read from their texts.
ghost use Rattle.std.specs.Prelude.{◌≡◌, ◌<◌, ◌-◌, ◌^◌, length};

use mp_base::NoMemory;
use mp_blocks::{Matched, is_square, match_all, order};
use mp_decl::{Declared, declare};
use mp_gram::parse;
use mp_incidence::Numbers;
use mp_lex::lex;
use mp_local::expand_locals;
use mp_model_data::Model;
use std::alloc::Global;
use std::process::Abort;
use std::test::Fail;

// A text, the variable of each of its equations, and its blocks.
type Paired = (&'static str, &'static [u32], &'static [&'static [u32]]);

const PAIRED: &[Paired] = &[
    (
        "var x y z; model; x + y = 3; x - y = 1; z = x*y; end;",
        &[1, 2, 3],
        &[&[1, 2], &[3]],
    ),
    // Shifts count for nothing, and an exogenous variable is none to be paired.
    (
        "var a b; varexo e; model; b(-1) = e; a(+1) = b + e(+2); end;",
        &[2, 1],
        &[&[1], &[2]],
    ),
    // A local stands for what it reads, and a difference for both of its terms.
    (
        "var a b; model; # g = diff(b); g = 1; a = b; end;",
        &[2, 1],
        &[&[1], &[2]],
    ),
    // Of two that may come the first comes first.
    (
        "var a b c; model; a = b + c; c = 1; b = 2; end;",
        &[1, 3, 2],
        &[&[2], &[3], &[1]],
    ),
    // Each takes the least that leaves the others one.
    (
        "var a b c; model; a = b; a = c; a = 1; end;",
        &[2, 3, 1],
        &[&[3], &[1], &[2]],
    ),
];

// A text, its short set, and the variables of that.
type Short = (&'static str, &'static [u32], &'static [u32]);

const SHORT: &[Short] = &[
    ("var x y z; model; x = 1; x = 2; y = z; end;", &[1, 2], &[1]),
    ("var x y; model; x = y; 1 = 2; end;", &[2], &[]),
    (
        "var w x y z; model; w = z; x = y; y = 1; x = 2*y; end;",
        &[2, 3, 4],
        &[2, 3],
    ),
];

// The model of the text.
fn model_of<'t>(alloc: Global, text: &'t [u8]) -> Result<Model<'t>, Fail>
    requires { length text.now < 2 ^ 32 - 1 }
{
    let tokens = lex(alloc, text)?;
    let file = parse(alloc, &tokens)?;
    let Declared {
        names,
        values,
        exponents,
    } = declare(alloc, &tokens, &file, text.len() as u32)?;
    match expand_locals(alloc, &file, names, &values, &exponents) {
        Ok(model) => Ok(model),
        Err(_) => Err(NoMemory.into()),
    }
}

// These are the numbers that are wanted.
fn are(rt: &impl Abort, numbers: &Numbers, want: &[u32]) {
    assert!(rt; numbers.len() == want.len());
    for i in 0..want.len() {
        assert!(rt; numbers.get(i) == want[i]);
    }
}

// The model's equations have these variables and blocks.
fn pairs(
    rt: &impl Abort,
    alloc: Global,
    model: &Model,
    variables: &[u32],
    blocks: &[&[u32]],
) -> Result<(), Fail> {
    assert!(rt; is_square(model));
    let Matched::Pairs { variables: found } = match_all(alloc, model)? else {
        assert!(rt; false);
        return Ok(());
    };
    are(rt, &found, variables);
    let list = order(alloc, model, &found)?;
    assert!(rt; list.len() == blocks.len());
    for p in 0..blocks.len() {
        are(rt, list.block(p), blocks[p]);
    }
    Ok(())
}

#[test]
fn equations_are_paired_and_ordered(rt: HostRuntime) -> Result<(), Fail> {
    for &(text, variables, blocks) in PAIRED {
        assert!(rt; text.len() < 1000);
        let model = model_of(rt.alloc(), text.as_bytes())?;
        pairs(&rt, rt.alloc(), &model, variables, blocks)?;
    }
    Ok(())
}

// The model's equations are short of variables.
fn is_short(
    rt: &impl Abort,
    alloc: Global,
    model: &Model,
    equations: &[u32],
    variables: &[u32],
) -> Result<(), Fail> {
    assert!(rt; is_square(model));
    let Matched::Short {
        equations: members,
        variables: found,
    } = match_all(alloc, model)?
    else {
        assert!(rt; false);
        return Ok(());
    };
    are(rt, &members, equations);
    are(rt, &found, variables);
    Ok(())
}

#[test]
fn short_sets_are_the_least(rt: HostRuntime) -> Result<(), Fail> {
    for &(text, equations, variables) in SHORT {
        assert!(rt; text.len() < 1000);
        let model = model_of(rt.alloc(), text.as_bytes())?;
        is_short(&rt, rt.alloc(), &model, equations, variables)?;
    }
    Ok(())
}

// From a text to its file, and from a file to its print.
ghost use Rattle.std.specs.Prelude.{◌-◌, ◌<◌, ◌^◌, length};

use mp_base::Bytes;
use mp_gram::{ParseFault, parse};
use mp_lex::lex;
use mp_print::print;
use std::alloc::Global;
use std::process::Abort;
use std::test::Fail;

// A text, and the number of its wrong token, or 0 where it is a file.
const WRONG_TOKENS: &[(&str, u32)] = &[
    (
        "parameters a, b; a = .5e1; b = -a^-2/(1 + min(a, 3));\nvar x; varexo e; model; x = a*x(-1) + e; max(x, b); end;",
        0,
    ),
    ("", 0),
    ("var x", 3),
    ("var x, , y;", 4),
    ("a + 1;", 2),
    ("a 1;", 2),
    ("a = 1 2;", 4),
    ("a = 2^3^4;", 6),
    ("a = --1;", 4),
    ("a = min 1;", 4),
    ("a = x(y);", 5),
    ("a = (1, 2);", 5),
    ("model; x = log(1); end;", 5),
    ("model; x; var", 5),
    ("var x; end;", 4),
    ("var x; model x = 1; end;", 5),
    ("var x; model; x = 1; ) end;", 10),
    ("a = 1 * + ;", 6),
    ("a = x(+ 1;", 7),
    ("model; x;", 5),
    ("model; x; end", 6),
    ("shocks; end;", 1),
    ("x.5;", 2),
];

// The same of locals, tags, options, declared names and noted commands.
const WRONG_TOKENS_OF_BLOCKS: &[(&str, u32)] = &[
    ("model; # = 1; end;", 4),
    ("model; [] x; end;", 4),
    ("model; [a=b] x; end;", 6),
    ("model; [a='b'] # g = 1; end;", 8),
    ("model(); end;", 3),
    ("model(a=); end;", 5),
    ("var $x$ y;", 2),
    ("var x (a='b') $x$;", 8),
    ("check x,;", 4),
    ("resid() x;", 3),
    ("a = diff x;", 4),
    ("a = diff(1, 2);", 6),
];

// The number of the text's wrong token, or 0 where it is a file.
fn wrong_token(alloc: Global, text: &[u8]) -> Result<u32, Fail>
    requires { length text.now < 2 ^ 32 - 1 }
{
    let tokens = lex(alloc, text)?;
    match parse(alloc, &tokens) {
        Ok(_) => Ok(0),
        Err(ParseFault::Token { index }) => Ok(index),
        Err(fault) => Err(fault.into()),
    }
}

// Each of these texts has this wrong token.
fn have_wrong_tokens(rt: &impl Abort, alloc: Global, rows: &[(&str, u32)]) -> Result<(), Fail> {
    for &(text, index) in rows {
        assert!(rt; text.len() < 1000);
        assert_eq!(rt; wrong_token(alloc, text.as_bytes())?, index);
    }
    Ok(())
}

#[test]
fn a_wrong_token_has_its_number(rt: HostRuntime) -> Result<(), Fail> {
    have_wrong_tokens(&rt, rt.alloc(), WRONG_TOKENS)
}

#[test]
fn a_wrong_token_of_a_block_has_its_number(rt: HostRuntime) -> Result<(), Fail> {
    have_wrong_tokens(&rt, rt.alloc(), WRONG_TOKENS_OF_BLOCKS)
}

// 500 open parentheses are read, and of 501 the last is wrong.
#[test]
fn parentheses_have_a_limit(rt: HostRuntime) -> Result<(), Fail> {
    let mut deep = [b'('; 1005];
    deep[0] = b'a';
    deep[1] = b'=';
    deep[502] = b'1';
    deep[503..1003].fill(b')');
    deep[1003] = b';';
    deep[1004] = b' ';
    assert_eq!(rt; wrong_token(rt.alloc(), &deep)?, 0);
    deep[502] = b'(';
    assert_eq!(rt; wrong_token(rt.alloc(), &deep)?, 503);
    Ok(())
}

// A file with each kind of statement and of atom.
const TEXT: &str =
    "parameters a, b; a = 0.50; b = -a*(2-.5e1); varexo e; var y x; model; -x(+01)*2.50/(a)-min(1,y)^-2 = max(y,e(-3))^(4*a); x; end;";

const PRINTED: &str =
    "parameters a b;\na = 0.50;\nb = -a*(2-.5e1);\nvarexo e;\nvar y x;\nmodel;\n-x(+01)*2.50/(a)-min(1,y)^-2 = max(y,e(-3))^(4*a);\nx;\nend;\n";

// The print of the file that the text is.
fn printed(alloc: Global, text: &[u8]) -> Result<Bytes, Fail>
    requires { length text.now < 2 ^ 32 - 1 }
{
    let tokens = lex(alloc, text)?;
    let file = parse(alloc, &tokens)?;
    match print(alloc, &file) {
        Ok(bytes) => Ok(bytes),
        Err(fault) => Err(fault.into()),
    }
}

// What a file keeps of a declared name is the name, and of a noted command its names.
const NAMED: &str =
    "var x $x_t$ (long_name='a,b', c=\"it's\"), y$$; check; rplot(a=1, b) x, y; model(linear,a=-.5,b=c,d='e'); # g=diff(-x) ; [name='a b', c=\"d\"]y=diff(diff(g)+1); end;";

const NAMED_PRINTED: &str =
    "var x y;\ncheck;\nrplot x y;\nmodel(linear,a=-.5,b=c,d='e');\n# g = diff(-x);\n[name='a b',c=\"d\"] y = diff(diff(g)+1);\nend;\n";

// A file whose text is written as it stands.
const QUOTIENT: &str = "var x y z;\nmodel;\ny = x^3/(1+z);\nx = 1;\nz = 1;\nend;\n";

// The text is printed so.
fn prints(rt: &impl Abort, alloc: Global, text: &str, want: &str) -> Result<(), Fail> {
    assert!(rt; text.len() < 1000);
    let bytes = printed(alloc, text.as_bytes())?;
    assert_eq!(rt; bytes.as_slice(), want.as_bytes());
    Ok(())
}

#[test]
fn a_file_is_printed_as_it_was_read(rt: HostRuntime) -> Result<(), Fail> {
    prints(&rt, rt.alloc(), TEXT, PRINTED)?;
    prints(&rt, rt.alloc(), NAMED, NAMED_PRINTED)?;
    prints(&rt, rt.alloc(), NAMED_PRINTED, NAMED_PRINTED)?;
    prints(&rt, rt.alloc(), QUOTIENT, QUOTIENT)
}

// What no clause says: that with memory at hand each expression has the value or the kind that a reader expects.

use mp_base::{Bytes, MacroKind, NoMemory};
use mp_mexpr::{eval, truth_of};
use mp_mvalue::{
    Array, Env, MacroFault, SharedValue, Value, Values, copy, is_among, print_value, same, shared,
    text,
};
use std::alloc::Global;
use std::process::Abort;
use std::test::Fail;

// Expressions and their printed values, where x is 3, s is "ab", b is true and xs is [1, 2].
const VALUES: &[(&str, &str)] = &[
    ("7", "7"),
    ("007", "7"),
    ("9223372036854775807", "9223372036854775807"),
    ("-9223372036854775807 - 1", "-9223372036854775808"),
    ("\"a b\"", "a b"),
    ("\"\"", ""),
    ("true", "true"),
    ("false", "false"),
    ("x", "3"),
    ("s", "ab"),
    ("xs", "[1, 2]"),
    ("[]", "[]"),
    ("[1, true, \"a\", [2]]", "[1, true, \"a\", [2]]"),
    ("(x)", "3"),
    (" \t( 1 )\r\n", "1"),
    ("true || zz", "true"),
    ("false || 0", "false"),
    ("2 || \"a\"", "true"),
    ("0 || 5", "true"),
    ("true || 9223372036854775808", "true"),
    ("false && zz", "false"),
    ("1 && 0", "false"),
    ("true && b", "true"),
    ("0 && \"a\"", "false"),
    ("true || false && false", "true"),
    ("(true || false) && false", "false"),
    ("!true", "false"),
    ("!0", "true"),
    ("!7", "false"),
    ("!(x == 3)", "false"),
    ("1 == 1", "true"),
    ("1 == true", "false"),
    ("\"1\" == 1", "false"),
    ("1 != \"1\"", "true"),
    ("\"a\" == \"a\"", "true"),
    ("[1, [2]] == [1, [2]]", "true"),
    ("[1, 2] == [1]", "false"),
    ("[] != []", "false"),
    ("true == !false", "true"),
    ("1 < 2", "true"),
    ("2 < 2", "false"),
    ("2 <= 2", "true"),
    ("3 > 2", "true"),
    ("2 >= 3", "false"),
    ("-1 < 0", "true"),
    ("2 in xs", "true"),
    ("3 in xs", "false"),
    ("\"1\" in [1]", "false"),
    ("true in [\"true\"]", "false"),
    ("[1] in [[1], 2]", "true"),
    ("1 in []", "false"),
    ("1:3", "[1, 2, 3]"),
    ("2:2", "[2]"),
    ("3:1", "[]"),
    ("-1:1", "[-1, 0, 1]"),
    ("1+1:2*2", "[2, 3, 4]"),
    ("2 in 1:3", "true"),
    (
        "9223372036854775806:9223372036854775807",
        "[9223372036854775806, 9223372036854775807]",
    ),
    ("1 + 2 * 3", "7"),
    ("(1 + 2) * 3", "9"),
    ("10 - 3 - 2", "5"),
    ("2 - -2", "4"),
    ("-x * 2", "-6"),
    ("-2 * -3", "6"),
    ("\"a\" + s", "aab"),
    ("\"\" + \"\"", ""),
    ("[1] + [\"b\"]", "[1, \"b\"]"),
    ("xs + []", "[1, 2]"),
    ("xs[1]", "1"),
    ("xs[x - 1]", "2"),
    ("[[1, 2], [3]][1][2]", "2"),
    ("-xs[2]", "-2"),
    ("(4:6)[3]", "6"),
    ("1<2 && 2<3 || false", "true"),
    ("0 || 0", "false"),
    ("x == 3 || zz", "true"),
    ("b && x", "true"),
    ("true && 0", "false"),
    ("!x == 3", "false"),
    ("true != true", "false"),
    ("xs == 1", "false"),
    ("xs == xs + []", "true"),
    ("s != \"ab\"", "false"),
    ("[true, 1] == [1, true]", "false"),
    ("3 <= 2", "false"),
    ("2 > 3", "false"),
    ("3 >= 3", "true"),
    ("3 - 1 < 3 * 1", "true"),
    ("s in [\"ab\"]", "true"),
    ("true in [1]", "false"),
    ("xs in [[1, 2]]", "true"),
    ("1 + 1 in 1:3", "true"),
    ("1 in [1] && 2 in [1]", "false"),
    ("1:3 == [1, 2, 3]", "true"),
    ("1:2 + 1", "[1, 2, 3]"),
    ("2 * 3:7", "[6, 7]"),
    ("5 - 7", "-2"),
    ("-0", "0"),
    ("0 * -5", "0"),
    ("[] + []", "[]"),
    ("[[]]", "[[]]"),
    ("[\"a\"][1]", "a"),
    ("[true][1]", "true"),
    ("xs[xs[1]]", "1"),
    ("(xs + [3])[3]", "3"),
    ("[5][1] + 1", "6"),
];

// Expressions without a value, and why.
const FAULTS: &[(&str, MacroKind)] = &[
    ("", MacroKind::BadExpression),
    ("1 +", MacroKind::BadExpression),
    ("1 2", MacroKind::BadExpression),
    ("(1", MacroKind::BadExpression),
    ("1)", MacroKind::BadExpression),
    ("[1,]", MacroKind::BadExpression),
    ("[,]", MacroKind::BadExpression),
    ("xs[]", MacroKind::BadExpression),
    ("1 < 2 < 3", MacroKind::BadExpression),
    ("1 == 1 == 1", MacroKind::BadExpression),
    ("1:2:3", MacroKind::BadExpression),
    ("--1", MacroKind::BadExpression),
    ("!!1", MacroKind::BadExpression),
    ("1 / 2", MacroKind::BadExpression),
    ("1 = 1", MacroKind::BadExpression),
    ("1 & 1", MacroKind::BadExpression),
    ("\"a", MacroKind::BadExpression),
    ("\"a\nb\"", MacroKind::BadExpression),
    ("true false", MacroKind::BadExpression),
    ("in", MacroKind::BadExpression),
    ("zz + $", MacroKind::BadExpression),
    ("zz (", MacroKind::BadExpression),
    ("zz", MacroKind::Unknown),
    ("zz + true", MacroKind::Unknown),
    ("true + zz", MacroKind::Unknown),
    ("false || zz", MacroKind::Unknown),
    ("[1, zz]", MacroKind::Unknown),
    ("1 + true", MacroKind::WrongKind),
    ("1 + \"a\"", MacroKind::WrongKind),
    ("xs + 1", MacroKind::WrongKind),
    ("true + true", MacroKind::WrongKind),
    ("\"a\" - \"b\"", MacroKind::WrongKind),
    ("xs * 2", MacroKind::WrongKind),
    ("-\"a\"", MacroKind::WrongKind),
    ("!\"a\"", MacroKind::WrongKind),
    ("!xs", MacroKind::WrongKind),
    ("\"a\" < \"b\"", MacroKind::WrongKind),
    ("1 < true", MacroKind::WrongKind),
    ("\"a\" || zz", MacroKind::WrongKind),
    ("1 && \"a\"", MacroKind::WrongKind),
    ("1 in 1", MacroKind::WrongKind),
    ("1:true", MacroKind::WrongKind),
    ("s[1]", MacroKind::WrongKind),
    ("xs[true]", MacroKind::WrongKind),
    ("9223372036854775808", MacroKind::Overflow),
    ("-9223372036854775808", MacroKind::Overflow),
    ("9223372036854775807 + 1", MacroKind::Overflow),
    ("-(-9223372036854775807 - 1)", MacroKind::Overflow),
    ("3037000500 * 3037000500", MacroKind::Overflow),
    ("xs[0]", MacroKind::OutOfRange),
    ("xs[3]", MacroKind::OutOfRange),
    ("()", MacroKind::BadExpression),
    ("* 1", MacroKind::BadExpression),
    ("1 ==", MacroKind::BadExpression),
    ("x y", MacroKind::BadExpression),
    ("1.5", MacroKind::BadExpression),
    ("@{x}", MacroKind::BadExpression),
    ("[1 2]", MacroKind::BadExpression),
    ("xs[1, 2]", MacroKind::BadExpression),
    ("xs[1", MacroKind::BadExpression),
    ("-!1", MacroKind::BadExpression),
    ("1 < 2 == true", MacroKind::BadExpression),
    ("1 in [1] in [true]", MacroKind::BadExpression),
    ("zz == zz", MacroKind::Unknown),
    ("zz in 1", MacroKind::Unknown),
    ("5[zz]", MacroKind::Unknown),
    ("\"a\" < zz", MacroKind::Unknown),
    ("s + xs", MacroKind::WrongKind),
    ("true + \"a\"", MacroKind::WrongKind),
    ("true - 1", MacroKind::WrongKind),
    ("xs - xs", MacroKind::WrongKind),
    ("\"a\" * 2", MacroKind::WrongKind),
    ("2 * true", MacroKind::WrongKind),
    ("-true", MacroKind::WrongKind),
    ("-xs", MacroKind::WrongKind),
    ("true < false", MacroKind::WrongKind),
    ("xs >= xs", MacroKind::WrongKind),
    ("1 > \"1\"", MacroKind::WrongKind),
    ("1 <= xs", MacroKind::WrongKind),
    ("s:3", MacroKind::WrongKind),
    ("1:xs", MacroKind::WrongKind),
    ("1 in \"1\"", MacroKind::WrongKind),
    ("1 in true", MacroKind::WrongKind),
    ("xs || true", MacroKind::WrongKind),
    ("0 || xs", MacroKind::WrongKind),
    ("\"a\" && true", MacroKind::WrongKind),
    ("1 && xs", MacroKind::WrongKind),
    ("5[1]", MacroKind::WrongKind),
    ("true[1]", MacroKind::WrongKind),
    ("xs[\"1\"]", MacroKind::WrongKind),
    ("xs[xs]", MacroKind::WrongKind),
    ("9223372036854775807 * 2 + zz", MacroKind::Overflow),
    ("-9223372036854775807 - 2", MacroKind::Overflow),
    ("xs[-1]", MacroKind::OutOfRange),
    ("[][1]", MacroKind::OutOfRange),
    ("xs[9223372036854775807]", MacroKind::OutOfRange),
];

// Names with values, and one that has lost its own.
fn fill(alloc: Global, env: &mut Env) -> Result<(), MacroFault> {
    env.set(b"x", SharedValue::Whole(3))?;
    env.set(b"s", text(alloc, b"ab")?)?;
    env.set(b"b", SharedValue::Truth(true))?;
    let pair = eval(alloc, b"[1, 2]", env)?;
    env.set(b"xs", pair)?;
    env.set(b"zz", SharedValue::Whole(0))?;
    env.unset(b"zz");
    Ok(())
}

fn env(alloc: Global) -> Result<Env, MacroFault> {
    let mut env = Env::new(alloc);
    match fill(alloc, &mut env) {
        Ok(()) => Ok(env),
        Err(fault) => {
            drop(env);
            Err(fault)
        }
    }
}

// The value is printed so.
fn prints(
    rt: &impl Abort,
    alloc: Global,
    value: &SharedValue,
    want: &[u8],
) -> Result<(), MacroFault> {
    let printed = print_value(alloc, value)?;
    assert_eq!(rt; printed.as_slice(), want);
    Ok(())
}

// Each of these expressions has the value that is printed so.
fn have_values(rt: &impl Abort, alloc: Global, env: &Env) -> Result<(), MacroFault> {
    for &(text, want) in VALUES {
        let value = eval(alloc, text.as_bytes(), env)?;
        prints(rt, alloc, &value, want.as_bytes())?;
    }
    Ok(())
}

#[test]
fn each_expression_has_its_value(rt: HostRuntime) -> Result<(), Fail> {
    let env = env(rt.alloc())?;
    Ok(have_values(&rt, rt.alloc(), &env)?)
}

// Each of these expressions is refused for this cause.
fn have_faults(rt: &impl Abort, alloc: Global, env: &Env) {
    for &(text, want) in FAULTS {
        match eval(alloc, text.as_bytes(), env) {
            Err(MacroFault::Refused { kind }) => assert_eq!(rt; kind, want, "of {text}"),
            _ => assert!(rt; false, "{text} has no fault"),
        }
    }
}

#[test]
fn each_fault_has_its_kind(rt: HostRuntime) -> Result<(), Fail> {
    let env = env(rt.alloc())?;
    have_faults(&rt, rt.alloc(), &env);
    Ok(())
}

// So many of the first, and then so many of the second.
fn pairs(alloc: Global, open: &[u8], close: &[u8], many: u32) -> Result<Bytes, MacroFault> {
    let mut text = Bytes::new(alloc);
    for _ in 0..many {
        text.add(open)?;
    }
    text.add(b"1")?;
    for _ in 0..many {
        text.add(close)?;
    }
    Ok(text)
}

// The kind of what is wrong, or None where there is a value.
fn kind_of(alloc: Global, text: &[u8], env: &Env) -> Result<Option<MacroKind>, MacroFault> {
    match eval(alloc, text, env) {
        Ok(_) => Ok(None),
        Err(MacroFault::Refused { kind }) => Ok(Some(kind)),
        Err(MacroFault::NoMemory) => Err(MacroFault::NoMemory),
    }
}

// What opens, what closes, how often, and the kind of what is wrong.
const BRACKETS: &[(&str, &str, u32, Option<MacroKind>)] = &[
    ("(", ")", 100, None),
    ("(", ")", 101, Some(MacroKind::NestDeep)),
    ("[", "]", 100, None),
    ("[", "]", 101, Some(MacroKind::NestDeep)),
    ("[(", ")]", 50, None),
    ("[(", ")]", 51, Some(MacroKind::NestDeep)),
    ("(", "", 100, Some(MacroKind::BadExpression)),
    ("(", "", 101, Some(MacroKind::NestDeep)),
    ("$(", ")", 101, Some(MacroKind::BadExpression)),
    ("", " + (1)", 200, None),
];

// Each of these brackets is read or refused as it should be.
fn brackets_end(rt: &impl Abort, alloc: Global, env: &Env) -> Result<(), MacroFault> {
    for &(open, close, many, want) in BRACKETS {
        let text = pairs(alloc, open.as_bytes(), close.as_bytes(), many)?;
        assert_eq!(rt; kind_of(alloc, text.as_slice(), env)?, want);
    }
    Ok(())
}

#[test]
fn brackets_have_a_limit(rt: HostRuntime) -> Result<(), Fail> {
    let env = env(rt.alloc())?;
    Ok(brackets_end(&rt, rt.alloc(), &env)?)
}

// Expressions over arrays at their limits, where a has 100 arrays inside one another, and the kind of what is wrong.
const ARRAYS: &[(&str, Option<MacroKind>)] = &[
    ("a", None),
    ("a + a", None),
    ("[a]", Some(MacroKind::ArrayLimit)),
    ("[] + [a]", Some(MacroKind::ArrayLimit)),
    ("1:100000", None),
    ("1:100001", Some(MacroKind::ArrayLimit)),
    ("(1:50000) + (1:50001)", Some(MacroKind::ArrayLimit)),
    ("(1:50000) + (1:50000) + [] == 1", None),
];

// The name a has 100 arrays inside one another.
fn set_deep(alloc: Global, env: &mut Env) -> Result<(), MacroFault> {
    let text = pairs(alloc, b"[", b"]", 100)?;
    let deep = eval(alloc, text.as_slice(), env)?;
    Ok(env.set(b"a", deep)?)
}

// Each of these arrays is made or refused as it should be.
fn arrays_end(rt: &impl Abort, alloc: Global, env: &mut Env) -> Result<(), MacroFault> {
    set_deep(alloc, env)?;
    for &(text, want) in ARRAYS {
        assert_eq!(rt; kind_of(alloc, text.as_bytes(), env)?, want);
    }
    Ok(())
}

#[test]
fn arrays_have_limits(rt: HostRuntime) -> Result<(), Fail> {
    let mut env = env(rt.alloc())?;
    Ok(arrays_end(&rt, rt.alloc(), &mut env)?)
}

#[test]
fn an_array_may_have_100000_elements(rt: HostRuntime) {
    let env = Env::new(rt.alloc());
    assert!(rt;
        matches!(
            eval(rt.alloc(), b"100000 in (1:50000) + (50001:100000)", &env),
            Ok(SharedValue::Truth(true))
        )
    );
}

// A name that is set has its value, and the last one when it is set again.
fn is_set(rt: &impl Abort, env: &mut Env) -> Result<(), NoMemory> {
    env.set(b"a", SharedValue::Whole(1))?;
    env.set(b"ab", SharedValue::Truth(true))?;
    assert!(rt; matches!(env.get(b"a"), Some(SharedValue::Whole(1))));
    assert!(rt; env.get(b"A").is_none());
    env.set(b"a", SharedValue::Whole(2))?;
    assert!(rt; matches!(env.get(b"a"), Some(SharedValue::Whole(2))));
    Ok(())
}

// A name that is unset has none, and others keep theirs.
fn is_unset(rt: &impl Abort, env: &mut Env) {
    env.unset(b"b");
    env.unset(b"a");
    assert!(rt; env.get(b"a").is_none());
    assert!(rt; matches!(env.get(b"ab"), Some(SharedValue::Truth(true))));
}

// An empty environment becomes one that has what it was told.
fn is_map(rt: &impl Abort, env: &mut Env) -> Result<(), NoMemory> {
    assert!(rt; env.get(b"a").is_none());
    is_set(rt, env)?;
    is_unset(rt, env);
    Ok(())
}

#[test]
fn an_environment_is_a_map(rt: HostRuntime) -> Result<(), Fail> {
    let mut env = Env::new(rt.alloc());
    Ok(is_map(&rt, &mut env)?)
}

// The list of -7 and of the list of false.
fn nested(alloc: Global) -> Result<Value, MacroFault> {
    let mut inner = Values::new(alloc);
    inner.push(Value::Truth(false))?;
    let mut values = Values::new(alloc);
    values.push(Value::Whole(-7))?;
    values.push(Value::List(inner))?;
    Ok(Value::List(values))
}

// A copy of the value is the same value, and is printed so.
fn is_copied(
    rt: &impl Abort,
    alloc: Global,
    whole: &SharedValue,
    want: &[u8],
) -> Result<(), MacroFault> {
    let again = copy(whole)?;
    assert!(rt; same(whole, &again));
    prints(rt, alloc, &again, want)
}

// A copy of the first element is among the elements.
fn has_first(rt: &impl Abort, elements: &[SharedValue]) -> Result<(), MacroFault> {
    assert_eq!(rt; elements.len(), 1);
    let first = copy(&elements[0])?;
    assert!(rt; is_among(elements, &first));
    assert!(rt; !is_among(elements, &SharedValue::Whole(-7)));
    Ok(())
}

// A value that is shared is what it was made of, and so is its copy.
#[test]
fn values_are_shared(rt: HostRuntime) -> Result<(), Fail> {
    let value = nested(rt.alloc())?;
    let whole = shared(rt.alloc(), &value)?;
    is_copied(&rt, rt.alloc(), &whole, b"[-7, [false]]")?;
    let array = Array::new(rt.alloc()).with(whole)?;
    Ok(has_first(&rt, array.as_slice())?)
}

#[test]
fn zero_is_false(rt: HostRuntime) {
    assert!(rt; matches!(truth_of(&SharedValue::Whole(0)), Ok(false)));
}

// The files that are asked for.
ghost use Rattle.std.specs.Prelude.{◌≤◌, length, OnOk, IfOk};
ghost use Rattle.mp_outside.specs.Outside.{Later, lookup};
ghost use Rattle.mp_directive.specs.Tree.{nodes_weight};
ghost use Rattle.mp_directive.specs.Groups.{groups};
ghost use Rattle.mp_directive.specs.Shown.{nodes_of};
ghost use Rattle.mp_macro.specs.Expansion.{contents, tree};
ghost use Rattle.mp_macro.specs.Says.{Placed, Refuses, Misses, SaysHere, Says};

use crate::fault::Stop;
use mp_base::{Bytes, Label, MacroKind};
use mp_directive::{Node, TreeFault, tree_of};
use mp_mvalue::MacroFault;
use mp_outside::{Fetched, Files};
use sqlite_items::{Boxed, Items};
use std::alloc::Global;

// How many bytes a file may have.
const MOST_BYTES: u64 = 8_388_608;

// A refusal at this line of this file.
pub(crate) fn refusal(alloc: Global, kind: MacroKind, file: &[u8], line: u32) -> Stop
    requires { length file.now ≤ 128 }
    ensures { Refuses kind file.now line result }
{
    match Boxed::new(alloc, Label::of(file)) {
        Ok(file) => Stop::Macro { kind, file, line },
        Err(_) => Stop::NoMemory,
    }
}

// A file with this name is absent.
fn absent(alloc: Global, name: &[u8]) -> Stop
    requires { length name.now ≤ 128 }
    ensures { Misses name.now result }
{
    match Boxed::new(alloc, Label::of(name)) {
        Ok(name) => Stop::Absent { name },
        Err(_) => Stop::NoMemory,
    }
}

// What one line has made, or its refusal at this line of this file.
pub(crate) fn placed<T>(
    alloc: Global,
    answer: Result<T, MacroFault>,
    file: &[u8],
    line: u32,
) -> Result<T, Stop>
    requires { length file.now ≤ 128 }
    ensures { Placed answer file.now line result }
{
    match answer {
        Ok(x) => Ok(x),
        Err(MacroFault::Refused { kind }) => Err(refusal(alloc, kind, file, line)),
        Err(MacroFault::NoMemory) => Err(Stop::NoMemory),
    }
}

// Puts the bytes of the file of this name, which is asked for in this line of this file, into `into`; a fault tells the
// name as it is shown.
pub(crate) fn fetch<F: Files>(
    alloc: Global,
    files: &mut F,
    name: &[u8],
    shown: &[u8],
    file: &[u8],
    line: u32,
    into: &mut Bytes,
) -> Result<(), Stop>
    requires shown { length shown.now ≤ 128 }
    requires file { length file.now ≤ 128 }
    ensures says { Says into.new (F.outside files.old) (F.outside files.new) (λ l. contents (lookup l name.now) shown.now file.now line) result }
    ensures later { Later (F.outside files.old) (F.outside files.new) }
    ensures few { OnOk result (length into.new ≤ 8388608) }
{
    match files.fetch(name, MOST_BYTES, into) {
        Fetched::Got => Ok(()),
        Fetched::Absent => Err(absent(alloc, shown)),
        Fetched::ReadFault => Err(Stop::ReadFault {
            count: files.faults(),
        }),
        Fetched::TooLong => Err(refusal(alloc, MacroKind::FileLong, file, line)),
        Fetched::NoMemory => Err(Stop::NoMemory),
    }
}

// The tree of a file, or its own fault.
pub(crate) fn tree<'t>(alloc: Global, file: &[u8], bytes: &'t [u8]) -> Result<Items<Node<'t>>, Stop>
    requires file { length file.now ≤ 128 }
    requires bytes { length bytes.now ≤ 8388608 }
    ensures tree { SaysHere nodes_of result (tree file.now (groups bytes.now)) }
    ensures few { IfOk result (λ nodes. nodes_weight (nodes_of nodes) ≤ length bytes.now) }
{
    match tree_of(alloc, bytes) {
        Ok(nodes) => Ok(nodes),
        Err(TreeFault::Refused { kind, line }) => Err(refusal(alloc, kind, file, line)),
        Err(TreeFault::NoMemory) => Err(Stop::NoMemory),
    }
}

// The first name that is one too many.
ghost use Rattle.std.specs.Prelude.{◌≡◌, ◌≤◌, ◌-◌, List, option_map, if◌then◌else◌};
ghost use Rattle.mp_statements.specs.declared.kind.NameKind.{NameKind};
ghost use Rattle.mp_statements.specs.Parts.{is_kind};
ghost use Rattle.mp_syntax.specs.Syntax as s;
ghost use Rattle.mp_declared.specs.Many.{most_names, declared_in, name_beyond};
ghost use Rattle.mp_file.specs.Shown.{statement_of, file_of};
ghost use Rattle.mp_local.specs.Many.{room_for, beyond_of, Passes};

use mp_file::{File, Named, Statement};
use mp_statements::NameKind;

/// A declared name that is one too many, and its kind.
#[derive(Clone, Copy, Debug)]
pub struct Beyond<'t> {
    pub kind: NameKind,
    pub name: Named<'t>,
}

/// How many names of a kind a file may declare: 200 endogenous variables, 1,000 exogenous ones, and 1,000 parameters
/// (modpath's own).
pub fn most_names(kind: NameKind) -> usize
    ensures { result ≡ most_names kind }
{
    match kind {
        NameKind::Endogenous => 200,
        NameKind::Exogenous => 1000,
        NameKind::Parameter => 1000,
    }
}

// How many more names of each kind there may be.
#[derive(Drop)]
pub(crate) struct Room {
    pub(crate) endogenous: usize,
    pub(crate) exogenous: usize,
    pub(crate) parameters: usize,
}

impl Room {
    // How many more names of this kind there may be.
    fn left(&self, kind: NameKind) -> usize
        ensures { result ≡ room_for kind self.now }
    {
        match kind {
            NameKind::Endogenous => self.endogenous,
            NameKind::Exogenous => self.exogenous,
            NameKind::Parameter => self.parameters,
        }
    }

    // This many names more of this kind are there.
    fn take(&mut self, kind: NameKind, count: usize)
        requires { count ≤ room_for kind self.old }
        ensures { (other : NameKind) → room_for other self.new ≡ (if is_kind other kind then room_for other self.old - count else room_for other self.old) }
    {
        match kind {
            NameKind::Endogenous => self.endogenous -= count,
            NameKind::Exogenous => self.exogenous -= count,
            NameKind::Parameter => self.parameters -= count,
        }
    }
}

/// The first declared name in text order, of any kind, that has the most names of its kind before it.
pub fn name_beyond<'t>(file: &File<'t>) -> Option<Beyond<'t>>
    ensures { option_map beyond_of result ≡ name_beyond (file_of file.now) }
{
    let mut room = Room {
        endogenous: most_names(NameKind::Endogenous),
        exogenous: most_names(NameKind::Exogenous),
        parameters: most_names(NameKind::Parameter),
    };
    'turns: for statement in file.statements.as_slice() {
        let beyond = beyond_in(&mut room, statement);
        if beyond.is_some() {
            return beyond;
        }
    }
    None
}

// The first name of a statement for which there is no room; or how much room is left after it.
fn beyond_in<'t>(room: &mut Room, statement: &Statement<'t>) -> Option<Beyond<'t>>
    ensures { (before : List (NameKind × s.Named)) → Passes before room.old (declared_in (statement_of statement.now)) room.new result }
{
    let Statement::Declares { kind, names } = statement else {
        return None;
    };
    let names = names.as_slice();
    let left = room.left(*kind);
    if left < names.len() {
        return Some(Beyond {
            kind: *kind,
            name: names[left],
        });
    }
    room.take(*kind, names.len());
    None
}

// What is known of names while the items of a model are gone over.
ghost use Rattle.std.specs.Prelude.{◌≡◌, option_map};
ghost use Rattle.mp_file.specs.Shown.{shift_of};
ghost use Rattle.mp_values.specs.Names as v;
ghost use Rattle.mp_values.specs.Shifts.{Shifts, own_shifts};
ghost use Rattle.mp_local.specs.Ends.{Tells};
ghost use Rattle.mp_local.specs.Known.{counted, Knows};

use crate::ends::Ends;
use crate::locals::Locals;
use crate::number::periods;
use crate::span::alone;
use mp_file::{Named, Shift};
use mp_names::Names;
use mp_statements::NameKind;

/// Whose shifts count: those of all variables, or of endogenous ones alone.
#[derive(Clone, Copy, Debug, PartialEq, Eq)]
pub enum Scope {
    Variables,
    Endogenous,
}

impl Scope {
    // Whether this name counts among these.
    fn counts(self, names: &Names, name: &[u8]) -> bool
        ensures { result ≡ counted self names.now name.now }
    {
        let endogenous = names.of_kind(NameKind::Endogenous).has(name);
        match self {
            Scope::Variables => endogenous || names.of_kind(NameKind::Exogenous).has(name),
            Scope::Endogenous => endogenous,
        }
    }
}

// Which names count, up to which limit, and the ends of the shifts of the locals so far.
#[derive(Drop)]
pub(crate) struct Known<'a, 't> {
    pub(crate) limit: u32,
    pub(crate) scope: Scope,
    pub(crate) names: &'a Names<'t>,
    pub(crate) locals: Locals<'t>,
}

impl<'a, 't> Known<'a, 't> {
    // The ends of the shifts that a name's own expression has.
    pub(crate) fn own_ends(&self, name: &[u8], shift: &Option<Shift>) -> Option<Ends>
        ensures { (s : Shifts) → Knows self.now s → Tells result (own_shifts s.locals (s.counts name.now) name.now (v.shift_of (option_map shift_of shift.now))) }
    {
        if let Some(ends) = self.locals.get(name) {
            return ends;
        }
        if self.scope.counts(self.names, name) {
            Some(alone(periods(shift)))
        } else {
            None
        }
    }
}

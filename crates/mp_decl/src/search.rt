// What is sought among the names that expressions read.
ghost use Rattle.std.specs.Prelude.{◌≡◌, option_map, Some, None, if◌then◌else◌};
ghost use Rattle.mp_decl.specs.Shown.{point_of};
ghost use Rattle.mp_decl.specs.Search.{name_in, is_unlisted, sought_by};

use crate::known::Known;
use mp_file::{Named, Shift};
use mp_names::NameList;

/// Where a name is read: in an expression of the model, or where only parameters are.
#[derive(Clone, Copy, Debug, PartialEq, Eq)]
pub enum Reader {
    InModel,
    Constant,
}

/// A point of an expression: a name that is read, with its shift if there is one, or a `diff` at its place.
#[derive(Clone, Copy, Debug)]
pub enum Point<'t> {
    Reads {
        reader: Reader,
        name: Named<'t>,
        shift: Option<Shift<'t>>,
    },
    Differs {
        reader: Reader,
        at: u32,
    },
}

impl<'t> Point<'t> {
    // The name that is read. A `diff` reads none, and has the empty one.
    pub(crate) fn name(&self) -> &'t [u8]
        ensures { result.now ≡ name_in (point_of self.now) }
    {
        match self {
            Point::Reads { name, .. } => name.name,
            Point::Differs { .. } => b"",
        }
    }
}

/// Which point of an expression is sought: one that fails by what is known, or a name that is not in a list.
#[derive(Clone, Copy)]
pub enum Search<'a, 't> {
    Faulty(&'a Known<'t>),
    Missing(&'a NameList<'t>),
}

impl<'a, 't> Search<'a, 't> {
    // The point, if it is sought.
    pub(crate) fn tested(&self, point: Point<'t>) -> Option<Point<'t>>
        ensures { option_map point_of result ≡ (if sought_by self.now (point_of point.entry) then Some (point_of point.entry) else None) }
    {
        if self.matches(&point) {
            Some(point)
        } else {
            None
        }
    }

    // Whether the point is sought.
    fn matches(&self, point: &Point<'t>) -> bool
        ensures { result ≡ sought_by self.now (point_of point.now) }
    {
        match self {
            Search::Faulty(known) => known.point_fault(point).is_some(),
            Search::Missing(given) => is_unlisted(given, point),
        }
    }
}

// Whether the point reads a name that is not in the list.
fn is_unlisted<'t>(given: &NameList<'t>, point: &Point<'t>) -> bool
    ensures { result ≡ is_unlisted given.now (point_of point.now) }
{
    match point {
        Point::Reads { name, .. } => !given.has(name.name),
        Point::Differs { .. } => false,
    }
}

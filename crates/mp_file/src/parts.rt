// What statements, equations and tags hold.
ghost use Rattle.std.specs.Prelude.{◌≡◌, map, find, option_map};
ghost use Rattle.mp_statements.specs.Parts as parts;
ghost use Rattle.mp_statements.specs.Parts.{items_in, is_tag, name_of};
ghost use Rattle.mp_file.specs.Shown.{tag_of, equation_of, item_of, statement_of};

use crate::{Equation, Item, Statement, Tag};

impl<'t> Statement<'t> {
    /// The items that the statement holds.
    pub fn items(&self) -> &[Item<'t>]
        ensures { map item_of result.now ≡ items_in (statement_of self.now) }
    {
        match self {
            Statement::Declares { .. } => &[],
            Statement::Assigns { .. } => &[],
            Statement::Model { items, .. } => items.as_slice(),
            Statement::Notes { .. } => &[],
        }
    }
}

impl<'t> Tag<'t> {
    /// The first of these tags that has this name.
    pub fn named<'a>(tags: &'a [Tag<'t>], name: &[u8]) -> Option<&'a Tag<'t>>
        ensures { option_map (λ t. tag_of t.now) result ≡ find (is_tag name.now) (map tag_of tags.now) }
    {
        'turns: for tag in tags {
            if tag.name.name == name {
                return Some(tag);
            }
        }
        None
    }

    /// What stands between the quotes of its text.
    pub fn unquoted(&self) -> &'t [u8]
        ensures { result.now ≡ parts.unquoted (tag_of self.now).text }
    {
        let text = self.text;
        if text.len() < 2 {
            return b"";
        }
        &text[1..text.len() - 1]
    }
}

impl<'t> Equation<'t> {
    /// The name that its tag gives it, if it has one (Dynare manual, "The model block").
    pub fn name(&self) -> Option<&'t [u8]>
        ensures { option_map (λ n. n.now) result ≡ name_of (equation_of self.now) }
    {
        match Tag::named(self.tags.as_slice(), b"name") {
            Some(tag) => Some(tag.unquoted()),
            None => None,
        }
    }
}

// The tags of equations.
ghost use Rattle.std.specs.Prelude.{◌≡◌, [], map, option_map};
ghost use Rattle.std.specs.List.{list_any};
ghost use Rattle.mp_statements.specs.Parts.{is_tag};
ghost use Rattle.mp_file.specs.Shown.{tag_of};
ghost use Rattle.mp_declared.specs.Points.{tag_points};
ghost use Rattle.mp_declared.specs.Declared.{is_unread_tag, is_used_tag, tag_fault};
ghost use Rattle.mp_decl.specs.Shown.{told};
ghost use Rattle.mp_decl.specs.Walks.{Walks};

use crate::fault::DeclFault;
use crate::known::{Known, wrong};
use mp_base::DeclKind;
use mp_file::{Named, Tag};

// Whether the tag is one whose text is not read yet.
fn is_unread(name: &[u8]) -> bool
    ensures { result ≡ is_unread_tag name.now }
{
    name == b"mcp".as_slice() || name == b"bind".as_slice() || name == b"relax".as_slice()
}

// Whether the tag is used. All others are read and dropped.
fn is_used(name: &[u8]) -> bool
    ensures { result ≡ is_used_tag name.now }
{
    name == b"name".as_slice() || is_unread(name)
}

// Whether one of these tags has this name.
fn is_there(tags: &[Tag], name: &[u8]) -> bool
    ensures { result ≡ list_any (is_tag name.now) (map tag_of tags.now) }
{
    Tag::named(tags, name).is_some()
}

// The fault of a tag after these of the same equation. The tags before it are looked through for used tags alone, of
// which the second of a name fails, so that the work stays linear in the tags.
fn tag_fault(before: &[Tag], tag: &Tag) -> Option<DeclFault>
    ensures { result ≡ option_map told (tag_fault (map tag_of before.now) (tag_of tag.now)) }
{
    let name = tag.name.name;
    if is_used(name) && is_there(before, name) {
        return Some(wrong(DeclKind::TagTwice, &tag.name));
    }
    if is_unread(name) {
        return Some(wrong(DeclKind::TagText, &Named { name, at: tag.at }));
    }
    None
}

// The walk over the tags of an equation.
pub(crate) fn walk_tags<'t>(known: &Known<'t>, tags: &[Tag<'t>]) -> Result<(), DeclFault>
    ensures { Walks result known.now known.now (tag_points [] (map tag_of tags.now)) }
{
    'turns: for i in 0..tags.len() {
        if let Some(fault) = tag_fault(&tags[..i], &tags[i]) {
            return Err(fault);
        }
    }
    Ok(())
}

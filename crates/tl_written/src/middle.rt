// The texts of an entry.
ghost use Rattle.std.specs.Prelude.{◌≡◌, ◌++◌, ◌∷◌, [], All, true, IfSome};
ghost use Rattle.std.specs.List.{flat_map};
ghost use Rattle.tl_text.specs.Texts.{IsText};
ghost use Rattle.tl_object.specs.Plain.{is_key};
ghost use Rattle.tl_object.specs.Formed.{IsFormedText, HasFormedTexts};
ghost use Rattle.tl_object.specs.Writing.{key_line, text_line, middle_lines};
ghost use Rattle.tl_written.specs.Stands.{Stands, AllStand};
ghost use Rattle.tl_written.specs.Found.{Finds};
ghost use Rattle.tl_written.specs.Pieces.{MiddleStand, middle_words};

use crate::lines::{is_text, keyed};

/// What stands behind the line of a text that may be absent.
pub(crate) fn text_behind<'a>(text: &'a [u8], key: &[u8]) -> Option<&'a [u8]>
    requires { is_key key.now ≡ true }
    ensures stands { IfSome result (λ rest. Stands (text_line key.now) IsFormedText text.now rest.now) }
    ensures finds { Finds (text_line key.now) IsFormedText ((key.now ++ 32 ∷ []) ∷ []) text.now result }
{
    let Some((value, rest)) = keyed(text, key) else {
        return Some(text);
    };
    if is_text(value) { Some(rest) } else { None }
}

fn texts_behind<'a>(text: &'a [u8], key: &[u8]) -> Option<&'a [u8]>
    requires { is_key key.now ≡ true }
    ensures stands { IfSome result (λ rest. AllStand (key_line key.now) IsText text.now rest.now) }
    ensures finds { Finds (flat_map (key_line key.now)) (All IsText) ((key.now ++ 32 ∷ []) ∷ []) text.now result }
{
    let mut rest = text;
    while let Some((value, behind)) = keyed(rest, key) {
        if !is_text(value) {
            return None;
        }
        rest = behind;
    }
    Some(rest)
}

/// What stands behind the descriptions, depends, executes and postactions.
pub(crate) fn middle_behind(text: &[u8]) -> Option<&[u8]>
    ensures stands { IfSome result (λ rest. MiddleStand text.now rest.now) }
    ensures finds { Finds middle_lines HasFormedTexts middle_words text.now result }
{
    let rest = texts_behind(text, b"longdesc")?;
    let rest = texts_behind(rest, b"depend")?;
    let rest = texts_behind(rest, b"execute")?;
    texts_behind(rest, b"postaction")
}

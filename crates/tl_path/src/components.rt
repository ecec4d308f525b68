// The components of a path.
ghost use Rattle.std.specs.Prelude.{◌≡◌, ◌+◌, ◌<◌, ◌==◌, [], ◌∷◌, length, take, drop, position, MatchOption};
ghost use Rattle.std.specs.Iterator.{YieldsFirstRef, item_count};
ghost use Rattle.tl_path.specs.Components.{components, is_no_component};

/// An iterator over the components of a path, as byte slices.
#[derive(Drop)]
pub struct Components<'a> {
    rest: Option<&'a [u8]>,
}

impl<'a> Components<'a> {
    ghost use Rattle.tl_path.specs.Inside.{components_left};

    pub(crate) fn of(text: &'a [u8]) -> Components<'a>
        ensures { components_left result ≡ components text.now }
    {
        Components { rest: Some(text) }
    }
}

impl<'a> Iterator for Components<'a> {
    ghost use Rattle.tl_path.specs.Inside.{components_left};

    type Item = &'a [u8];

    ghost next_gives = { YieldsFirstRef components_left };

    ghost remaining = { item_count components_left };

    fn next(&mut self) -> Option<&'a [u8]> {
        let rest = self.rest?;
        match component_end(rest) {
            Some(end) => {
                self.rest = Some(&rest[end + 1..]);
                Some(&rest[..end])
            }
            None => {
                self.rest = None;
                Some(rest)
            }
        }
    }
}

pub(crate) fn is_no_component(component: &[u8]) -> bool
    ensures { result ≡ is_no_component component.now }
{
    matches!(component, [] | [b'.'] | [b'.', b'.'])
}

// Where the first component ends: at the first '/', or with the text where this answers None.
fn component_end(text: &[u8]) -> Option<usize>
    ensures { MatchOption result (components text.now ≡ text.now ∷ [])
        (λ end. (end < length text.now)
        × (components text.now ≡ take end text.now ∷ components (drop (end + 1) text.now))) }
{
    first_slash(text)
}

fn first_slash(text: &[u8]) -> Option<usize>
    ensures { result ≡ position (λ b. b == 47) text.now }
{
    text.iter().position(|byte| *byte == b'/')
}

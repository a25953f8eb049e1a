// The lines of one set, in order of age.
ghost use Rattle.std.specs.Prelude.{◌≡◌, ◌≢◌, ◌≤◌, ◌∷◌, [], ◌++◌, length, slice_index_or, slice_set, IfSome, IfNone, is_none, vec_len};
ghost use Rattle.cache_lru.specs.Recency.{is_among};
ghost use Rattle.cache_lru.specs.Contents.{remove_first, renewed};

use std::marker::Model;

/// At most eight lines, the most recently used first.
#[derive(Debug, Drop)]
pub(crate) struct Row {
    lines: [u32; 8],
    len: usize,
}

impl Model for Row {
    ghost use Rattle.std.specs.Prelude.{ℕ, List, ◌≤◌, take};

    ghost Value = { List ℕ };

    ghost view = { λ r. take r.len r.lines };

    ghost invariant = { λ r. r.len ≤ 8 };
}

impl Row {
    /// No lines.
    pub(crate) fn new() -> Row
        ensures { result ≡ [] }
    {
        Row {
            lines: [0; 8],
            len: 0,
        }
    }

    /// Takes all lines out.
    pub(crate) fn clear(&mut self)
        ensures { self.new ≡ [] }
    {
        self.len = 0;
    }

    /// Makes a line the most recent one, and tells whether it was there. Where there are `ways` lines, the last one goes.
    pub(crate) fn renew(&mut self, ways: u32, line: u32) -> bool
        requires { ways ≤ 8 }
        ensures hit { result ≡ is_among line self.old }
        ensures lines { length self.old ≤ ways → self.new ≡ renewed ways line self.old }
    {
        let Some(last) = push_down(&mut self.lines[..self.len], line) else {
            return true;
        };
        if self.len < ways as usize {
            self.lines[self.len] = last;
            self.len += 1;
        }
        false
    }
}

/// Puts a line in front of others, which move on by one place up to the place where it stood. If it stood nowhere,
/// gives the one that stood last, or the line itself where there are no others.
fn push_down(lines: &mut [u32], line: u32) -> Option<u32>
    ensures found { is_none result ≡ is_among line lines.old }
    ensures renewed { IfNone result (lines.new ≡ line ∷ remove_first line lines.old) }
    ensures moved { IfSome result (λ last. lines.new ++ last ∷ [] ≡ line ∷ lines.old) }
{
    let mut held = line;
    for slot in lines.iter_mut() {
        let next = *slot;
        *slot = held;
        if next == line {
            return None;
        }
        held = next;
    }
    Some(held)
}

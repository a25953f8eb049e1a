// What is asked of a task, in parts.
ghost use Rattle.std.specs.Prelude.{◌≡◌, [], Some, None, option_map, unwrap_or};
ghost use Rattle.std.specs.List.{last_or};
ghost use Rattle.std.specs.Str.{IsUtf8};
ghost use Rattle.task_text.specs.Limits.{KeepsLimits};
ghost use Rattle.task_text.specs.TaskParts.{fastest_ps as fastest_ps_lem, image_name as image_name_lem};

use crate::task::{Source, Task};

// The last of some numbers, 0 where there is none.
fn last_of(points: &[u64]) -> u64
    ensures { result ≡ unwrap_or (last_or None points.now) 0 }
{
    match points {
        [.., p] => *p,
        [] => 0,
    }
}

// A text of bytes that are one.
fn text_of(bytes: &[u8]) -> Option<&str>
    requires { IsUtf8 bytes.now }
    ensures { option_map (λ s. s.now) result ≡ Some bytes.now }
{
    match str::from_utf8(bytes) {
        Ok(text) => Some(text),
        Err(_) => None,
    }
}

impl Task {
    /// The clock period of the fastest operating point, ps: the last of its points. 0 where there is none. Takes no memory.
    pub fn fastest_ps(&self) -> u64
        ensures { result ≡ fastest_ps_lem self.now }
    {
        last_of(self.points.as_slice())
    }

    /// The name of the image file. None where the code stands in the text. Takes no memory.
    pub fn image_name(&self) -> Option<&str>
        requires { KeepsLimits self.now }
        ensures { option_map (λ s. s.now) result ≡ image_name_lem self.now.image }
    {
        match &self.image {
            Source::Name(name) => text_of(name.as_slice()),
            Source::Words(_) => None,
        }
    }
}

// What a jobs text says.
ghost use Rattle.std.specs.Prelude.{◌≡◌, ◌<◌, ◌≤◌, ◌+◌, length, take, drop};
ghost use Rattle.task_text.specs.JobInputs.{AreInside, input_of};

use visa_io::List;

/// The execution time of a sub-task in the past, in cycles.
#[derive(Clone, Copy, Debug)]
pub struct Past {
    /// The number of the sub-task, from 1.
    pub sub: u32,
    pub cycles: u64,
}

/// Where the input of a job stands among the bytes of all inputs.
#[derive(Clone, Copy, Debug)]
pub struct Piece {
    pub from: u64,
    pub len: u32,
}

/// The past execution times and the inputs of the jobs to run, in order.
#[derive(Debug, Drop)]
pub struct Jobs {
    pub past: List<Past>,
    pub inputs: List<Piece>,
    pub bytes: List<u8>,
}

// So many bytes from a place on.
fn piece_of(bytes: &[u8], piece: Piece) -> &[u8]
    requires { piece.from + piece.len ≤ length bytes.now }
    ensures { result.now ≡ take piece.len (drop piece.from bytes.now) }
{
    let from = piece.from as usize;
    &bytes[from..from + piece.len as usize]
}

impl Jobs {
    /// The input of job `k`, counted from 0. Takes no memory.
    pub fn input(&self, k: usize) -> &[u8]
        requires job { k < length self.now.inputs }
        requires inside { AreInside self.now }
        ensures { result.now ≡ input_of self.now k }
    {
        piece_of(self.bytes.as_slice(), self.inputs.as_slice()[k])
    }
}

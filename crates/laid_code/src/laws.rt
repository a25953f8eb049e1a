//! The laws, over the definitions alone. Each function has an empty body: its clause is the law.
ghost use Rattle.visa_io.specs.declared.records.Image.{Image as Given};
ghost use Rattle.visa_io.specs.ImageCode.{IsFilled, code_of_image};
ghost use Rattle.flow_graph.specs.Code.{IsCode};
ghost use Rattle.mips_ref.specs.Memory.{Flat};
ghost use Rattle.task_text.specs.declared.task.Task.{Task};
ghost use Rattle.task_layout.specs.Layout.{IsLaidOut};
ghost use Rattle.run_law.specs.Runs.{HasCode};
ghost use Rattle.laid_code.specs.Bytes.{AreBytes};

/// The words of the code of an image, from which the graph is read, are those that the machine fetches from the memory of the layout.
pub fn a_layout_has_its_code()
    ensures { (t : Task) (i : Given) (m : Flat) → IsLaidOut t i m → IsFilled i → AreBytes i.bytes → HasCode (code_of_image i) m }
{}

/// They are whole words, in spans that end by 2^32 and share no address.
pub fn code_of_a_layout()
    ensures { (t : Task) (i : Given) (m : Flat) → IsLaidOut t i m → IsFilled i → IsCode (code_of_image i) }
{}

/// The items of a list of bytes are bytes.
pub fn items_are_bytes(bytes: &[u8])
    ensures { AreBytes bytes.now }
{}

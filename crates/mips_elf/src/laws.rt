//! Laws on files of images: each has one answer, want of memory aside.
ghost use Rattle.mips_elf.specs.Images.{IsAnswer};
ghost use Rattle.mips_elf.specs.declared.error.ElfError.{ElfError};
ghost use Rattle.mips_elf.specs.declared.error.ElfError.TheVariants.{Memory};
ghost use Rattle.std.specs.Prelude.{◌≡◌, ◌≢◌, ℕ, Err, List, Ok};
ghost use Rattle.visa_io.specs.declared.records.Image.{Image};

/// A file has one image, or one refusal: the first rule that it breaks.
pub fn one_image()
    ensures images { (bytes : List ℕ) (a b : Image) → IsAnswer bytes (Ok a) → IsAnswer bytes (Ok b) → a ≡ b }
    ensures refusals { (bytes : List ℕ) (one other : ElfError) → IsAnswer bytes (Err one) → IsAnswer bytes (Err other)
        → one ≢ Memory → other ≢ Memory → one ≡ other }
    ensures apart { (bytes : List ℕ) (image : Image) (error : ElfError) → IsAnswer bytes (Ok image)
        → IsAnswer bytes (Err error) → error ≡ Memory }
{}

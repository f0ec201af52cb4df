use elf_format::form::Form;
use elf_layout_plan::Builder;
use std::marker::Model;

/// An edited image with the new sizes of its sections, and the image that was read from the same bytes.
#[derive(Drop)]
pub struct Resizing<'a, 'data> {
    /// The image that was read.
    pub read: &'a Builder<'data>,
    /// The edited image.
    pub image: &'a Builder<'data>,
    /// The new size of each of the edited image's sections, in bytes.
    pub sizes: &'a [u64],
}

impl<'a, 'data> Model for Resizing<'a, 'data> {
    ghost use Rattle.elf_layout_plan.specs.Memory.{Resized};
    ghost use Rattle.elf_layout_moves.specs.Inner.{IsResized};
    ghost use Rattle.elf_layout_moves.specs.Seen.{resized_model};

    ghost Value = { Resized };

    ghost view = { resized_model };

    ghost invariant = { λ s. IsResized (resized_model s) };
}

impl Resizing<'_, '_> {
    ghost use Rattle.std.specs.Prelude.{◌≡◌};

    /// How the numbers of the image are spelled (gABI, ELF Header, ELF Identification). Takes no memory.
    pub fn form(&self) -> Form
        ensures { result ≡ self.now.image.form }
    {
        self.image.form()
    }
}

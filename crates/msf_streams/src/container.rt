//! A file with its layout.

ghost use Rattle.std.specs.Prelude.{◌≡◌};
ghost use Rattle.msf_superblock.specs.Superblock.{HoldsBlocks};

use msf_blocks::Layout;
use std::alloc::{Allocator, Global};
use std::marker::Model;

/// A container: a file, with its layout. The file has all the blocks that the superblock counts.
///
/// Made by [`Container::new`].
#[derive(Debug, Drop)]
pub struct Container<'f, 'l, A: Allocator = Global> {
    file: &'f [u8],
    layout: &'l Layout<A>,
}

impl<'f, 'l, A: Allocator> Model for Container<'f, 'l, A> {
    ghost use Rattle.msf_superblock.specs.Superblock.{HoldsBlocks};
    ghost use Rattle.msf_streams.specs.Container.{ContainerView};

    ghost Value = { ContainerView };

    ghost view = { λ c. record { file = c.file.now; layout = c.layout.now } };

    ghost invariant = { λ c. HoldsBlocks c.file.now c.layout.now.superblock };
}

impl<'f, 'l, A: Allocator> Container<'f, 'l, A> {
    /// The container of a file with this layout.
    pub fn new(file: &'f [u8], layout: &'l Layout<A>) -> Container<'f, 'l, A>
        requires { HoldsBlocks file.now layout.now.superblock }
        ensures file { result.file ≡ file.now }
        ensures layout { result.layout ≡ layout.now }
    {
        Container { file, layout }
    }

    /// The bytes of the file.
    pub fn file(&self) -> &'f [u8]
        ensures value { result.now ≡ self.now.file }
        ensures whole { HoldsBlocks result.now self.now.layout.superblock }
    {
        self.file
    }

    /// The layout of the file.
    pub fn layout(&self) -> &'l Layout<A>
        ensures { result.now ≡ self.now.layout }
    {
        self.layout
    }
}

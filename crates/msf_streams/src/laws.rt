//! What holds of every image, and of the streams of every file.
//!
//! Each function here does nothing. Its contract is the law.

ghost use Rattle.msf_streams.specs.Laws.{ImagesReadBack, FewBlocksFit, ImagesAreBytes, KnownStream, StreamsAreBytes};

/// An image reads back: it has a layout whose streams are just the streams that it was made of.
///
/// [`image_len`](crate::image_len) returns the length of the image, and `None` for streams that do
/// not fit.
pub fn images_read_back()
    ensures { ImagesReadBack }
{}

/// Five streams fit in a file under two conditions: one block can list the blocks of their
/// directory, and they have at most 1 GiB and 128 KiB together, each padded to whole blocks.
pub fn few_blocks_fit()
    ensures { FewBlocksFit }
{}

/// The image of streams of bytes is made of bytes: numbers below 256.
pub fn images_are_bytes()
    ensures { ImagesAreBytes }
{}

/// Each stream of a file of bytes is made of bytes: numbers below 256.
pub fn streams_are_bytes()
    ensures { StreamsAreBytes }
{}

/// Of a file that is known, reads give just the contents of a stream of its layout.
pub fn known_stream()
    ensures { KnownStream }
{}

//! The standard streams, where a path names them.

ghost use Rattle.host_files.specs.Streams.{contents_of};

use crate::said::Telling;
use std::fmt;
use std::io::{self, Read, Stderr, Stdin, Stdout, Write};
use std::rt::HostRuntime;

/// What has the three standard streams.
pub trait StandardStreams {
    /// Standard input.
    fn input(&self) -> Stdin;

    /// Standard output.
    fn output(&self) -> Stdout;

    /// Standard error.
    fn error(&self) -> Stderr;
}

impl StandardStreams for HostRuntime {
    fn input(&self) -> Stdin {
        self.stdin()
    }

    fn output(&self) -> Stdout {
        self.stdout()
    }

    fn error(&self) -> Stderr {
        self.stderr()
    }
}

/// One of the standard streams.
#[derive(Clone, Copy, Debug, PartialEq, Eq)]
pub enum Stream {
    Input,
    Output,
    Error,
}

impl Stream {
    /// The standard stream that a path names, by one of the names that the system has for it.
    pub fn named(path: &str) -> Option<Stream> {
        match path {
            "/dev/stdin" | "/dev/fd/0" | "/proc/self/fd/0" => Some(Stream::Input),
            "/dev/stdout" | "/dev/fd/1" | "/proc/self/fd/1" => Some(Stream::Output),
            "/dev/stderr" | "/dev/fd/2" | "/proc/self/fd/2" => Some(Stream::Error),
            _ => None,
        }
    }
}

/// What gives the bytes of an input: a file that was opened, or standard input.
#[derive(Drop)]
pub enum Giver<'a, F> {
    File(Telling<'a, F>),
    Stream(Telling<'a, Stdin>),
}

impl<F> fmt::Debug for Giver<'_, F> {
    fn fmt<W: fmt::Write>(&self, f: &mut fmt::Formatter<W>) -> fmt::Result {
        match self {
            Giver::File(file) => file.fmt(f),
            Giver::Stream(stream) => stream.fmt(f),
        }
    }
}

impl<F: Read> Read for Giver<'_, F> {
    fn read(&mut self, buffer: &mut [u8]) -> io::Result<usize> {
        match self {
            Giver::File(file) => file.read(buffer),
            Giver::Stream(stream) => stream.read(buffer),
        }
    }
}

/// What takes the bytes of a new file: a file of its own, or a standard stream.
#[derive(Drop)]
pub enum Taker<'a, F> {
    File(Telling<'a, F>),
    Output(Telling<'a, Stdout>),
    Error(Telling<'a, Stderr>),
}

impl<F: Write> Write for Taker<'_, F> {
    ghost contents = { λ t. contents_of F.contents t };

    fn write(&mut self, bytes: &[u8]) -> io::Result<usize> {
        match self {
            Taker::File(file) => file.write(bytes),
            Taker::Output(stream) => stream.write(bytes),
            Taker::Error(stream) => stream.write(bytes),
        }
    }

    fn flush(&mut self) -> io::Result<()> {
        match self {
            Taker::File(file) => file.flush(),
            Taker::Output(stream) => stream.flush(),
            Taker::Error(stream) => stream.flush(),
        }
    }
}

// The text of a picture.
use crate::escapes::append_escaped;
use iom_base::DeviceId;
use itoa::Buffer;
use std::alloc::{AllocError, Global};

/// A piece of an SVG.
#[derive(Clone, Copy)]
pub enum Part<'a> {
    /// Markup of the picture's own.
    Markup(&'a str),
    /// Text of the trace.
    Text(&'a [u8]),
    /// A number in decimal.
    Number(u64),
    /// A device in six hexadecimal digits.
    Device(DeviceId),
}

/// An SVG that grows.
#[derive(Drop)]
pub struct Svg {
    bytes: Vec<u8>,
}

impl Svg {
    /// An empty one.
    pub fn new(alloc: Global) -> Svg {
        Svg {
            bytes: Vec::new(alloc),
        }
    }

    /// All of it.
    pub fn into_bytes(self) -> Vec<u8> {
        let Svg { bytes } = self;
        bytes
    }

    /// Markup of the picture's own.
    pub fn markup(&mut self, text: &str) -> Result<(), AllocError> {
        self.bytes.extend_from_slice(text.as_bytes())
    }

    /// Text of the trace.
    pub fn text(&mut self, text: &[u8]) -> Result<(), AllocError> {
        append_escaped(&mut self.bytes, text)
    }

    /// A number in decimal.
    pub fn number(&mut self, number: u64) -> Result<(), AllocError> {
        let mut buffer = Buffer::new();
        self.bytes
            .extend_from_slice(buffer.format(number).as_bytes())
    }

    /// A device in six hexadecimal digits.
    pub fn device(&mut self, id: DeviceId) -> Result<(), AllocError> {
        for place in 0..6u32 {
            let digit = (id >> (20 - 4 * place)) & 15;
            let letter = b"0123456789abcdef"
                .get(digit as usize)
                .copied()
                .unwrap_or(b'?');
            self.bytes.extend_from_slice(&[letter])?;
        }
        Ok(())
    }

    fn part(&mut self, part: Part<'_>) -> Result<(), AllocError> {
        match part {
            Part::Markup(text) => self.markup(text),
            Part::Text(text) => self.text(text),
            Part::Number(number) => self.number(number),
            Part::Device(id) => self.device(id),
        }
    }

    /// These pieces, one behind the other.
    // One call for all of them: each call that may fail is a way of its own for a proof.
    pub fn append(&mut self, parts: &[Part<'_>]) -> Result<(), AllocError> {
        for part in parts {
            self.part(*part)?;
        }
        Ok(())
    }

    /// An attribute that is a number.
    pub fn attribute(&mut self, name: &str, value: u64) -> Result<(), AllocError> {
        self.append(&[
            Part::Markup(" "),
            Part::Markup(name),
            Part::Markup("=\""),
            Part::Number(value),
            Part::Markup("\""),
        ])
    }

    /// A rectangle with the fill, up to what ends its first tag.
    pub fn rectangle(
        &mut self,
        left: u64,
        top: u64,
        width: u64,
        height: u64,
        fill: &str,
    ) -> Result<(), AllocError> {
        self.append(&[
            Part::Markup("<rect x=\""),
            Part::Number(left),
            Part::Markup("\" y=\""),
            Part::Number(top),
            Part::Markup("\" width=\""),
            Part::Number(width),
            Part::Markup("\" height=\""),
            Part::Number(height),
            Part::Markup("\" fill=\""),
            Part::Markup(fill),
            Part::Markup("\""),
        ])
    }

    /// A line between two points.
    pub fn line(&mut self, from: (u64, u64), to: (u64, u64), look: &str) -> Result<(), AllocError> {
        self.append(&[
            Part::Markup("<path d=\"M"),
            Part::Number(from.0),
            Part::Markup(" "),
            Part::Number(from.1),
            Part::Markup("L"),
            Part::Number(to.0),
            Part::Markup(" "),
            Part::Number(to.1),
            Part::Markup("\" "),
            Part::Markup(look),
            Part::Markup("/>\n"),
        ])
    }

    /// The first tag of a text at the place.
    pub fn begin_text(&mut self, left: u64, base: u64, look: &str) -> Result<(), AllocError> {
        self.append(&[
            Part::Markup("<text x=\""),
            Part::Number(left),
            Part::Markup("\" y=\""),
            Part::Number(base),
            Part::Markup("\""),
            Part::Markup(look),
            Part::Markup(">"),
        ])
    }
}

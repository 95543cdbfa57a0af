// The text of a trace, as it may stand in a picture.
ghost use Rattle.std.specs.Prelude.{◌≡◌, ◌++◌, OnOk, true};
ghost use Rattle.std.specs.List.{list_all};
ghost use Rattle.iom_svg.specs.Escapes.{escape_of, escaped, is_plain};

use std::alloc::AllocError;

/// Appends what stands for the byte.
fn append_escape(bytes: &mut Vec<u8>, byte: u8) -> Result<(), AllocError>
    ensures { OnOk result (bytes.new.items ≡ bytes.old.items ++ escape_of byte) }
{
    match byte {
        b'<' => bytes.extend_from_slice(b"&lt;"),
        b'>' => bytes.extend_from_slice(b"&gt;"),
        b'&' => bytes.extend_from_slice(b"&amp;"),
        b'"' => bytes.extend_from_slice(b"&quot;"),
        b' '..=b'~' => bytes.extend_from_slice(&[byte]),
        _ => bytes.extend_from_slice(b"?"),
    }
}

/// Appends the text so that no `<`, `>`, `&` or `"` of it stands there as such: each is written by its name, and what is no
/// printable ASCII as a question mark.
pub fn append_escaped(bytes: &mut Vec<u8>, text: &[u8]) -> Result<(), AllocError>
    ensures written { OnOk result (bytes.new.items ≡ bytes.old.items ++ escaped text.now) }
    ensures plain { list_all is_plain (escaped text.now) ≡ true }
{
    for byte in text {
        append_escape(bytes, *byte)?;
    }
    Ok(())
}

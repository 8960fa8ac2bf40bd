//! Texts as HTML shows them.

ghost use Rattle.std.specs.Prelude.{◌≡◌, ◌++◌, OnOk};
ghost use Rattle.prl_page.specs.Html.{escaped, escape};

use std::alloc::AllocError;

/// What a page begins with, up to its title.
pub(crate) const HEAD: &str =
    "<!DOCTYPE html>\n<html lang=\"en\">\n<head>\n<meta charset=\"utf-8\"/>\n\
    <meta name=\"viewport\" content=\"width=device-width, initial-scale=1\"/>\n<style>\n\
    body{font-family:sans-serif;max-width:76rem;margin:0 auto;padding:1rem;color:#222;background:#fff}\n\
    h1{font-size:1.6rem}h2{font-size:1.2rem;margin-top:2rem;border-bottom:1px solid #ccc}\n\
    pre{overflow-x:auto;background:#f5f5f5;padding:.8rem;line-height:1.35;font-size:.85rem}\n\
    figure{margin:0;overflow-x:auto}figure svg{width:100%;min-width:56rem;height:auto}\n\
    p{max-width:50rem;line-height:1.4}code{background:#f5f5f5;padding:.1rem .25rem}\n\
    </style>\n<title>";

/// What stands between the title and the body.
pub(crate) const BODY: &str = "</title>\n</head>\n<body>\n";

/// What a page ends with.
pub(crate) const FOOT: &str = "</body>\n</html>\n";

/// Appends a byte as it stands in HTML.
fn push_byte(text: &mut Vec<u8>, byte: u8) -> Result<(), AllocError>
    ensures { OnOk result (text.new.items ≡ text.old.items ++ escape byte) }
{
    match byte {
        b'&' => text.extend_from_slice(b"&amp;"),
        b'<' => text.extend_from_slice(b"&lt;"),
        b'>' => text.extend_from_slice(b"&gt;"),
        b'"' => text.extend_from_slice(b"&quot;"),
        _ => text.extend_from_slice(&[byte]),
    }
}

/// Appends a text as it stands in HTML.
pub(crate) fn push_escaped(text: &mut Vec<u8>, bytes: &[u8]) -> Result<(), AllocError>
    ensures { OnOk result (text.new.items ≡ text.old.items ++ escaped bytes.now) }
{
    for byte in bytes {
        push_byte(text, *byte)?;
    }
    Ok(())
}

//! Paths as a reader writes them.

ghost use Rattle.std.specs.Prelude.{◌≡◌, ◌++◌, OnOk};
ghost use Rattle.report_text.specs.Lines as lines;
ghost use Rattle.report_text.specs.Lines.{closing, shown};

use rb_base::NoMemory;

fn begins_index(bytes: &[u8]) -> bool
    ensures { result ≡ lines.begins_index bytes.now }
{
    match bytes {
        [] => false,
        [byte, ..] => byte.is_ascii_digit(),
    }
}

fn close(text: &mut Vec<u8>, is_open: bool) -> Result<(), NoMemory>
    ensures { OnOk result (text.new.items ≡ text.old.items ++ closing is_open) }
{
    if is_open {
        text.push(b']')?;
    }
    Ok(())
}

fn opening(is_index: bool) -> u8
    ensures { result ≡ lines.opening is_index }
{
    if is_index { b'[' } else { b'.' }
}

/// Adds a path, with indices in brackets and names behind points.
pub(crate) fn push_path(text: &mut Vec<u8>, path: &[u8]) -> Result<(), NoMemory>
    ensures { OnOk result (text.new.items ≡ text.old.items ++ shown path.now) }
{
    let mut is_open = false;
    let mut rest = path;
    while let [byte, behind @ ..] = rest {
        if *byte == b'$' {
            close(text, is_open)?;
            is_open = begins_index(behind);
            text.push(opening(is_open))?;
        } else {
            text.push(*byte)?;
        }
        rest = behind;
    }
    close(text, is_open)
}

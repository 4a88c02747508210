// Comparisons of results with expected values.
use crate::answer::Answer;
use crate::fault::Fault;

/// Writes both numbers where they differ.
pub fn put_number_difference(out: &mut Answer, what: &str, wanted: u64, came: u64) {
    if wanted != came {
        out.put(b"    ");
        out.put(what.as_bytes());
        out.put(b" wanted ");
        out.put_unsigned(u128::from(wanted));
        out.put(b", came ");
        out.put_unsigned(u128::from(came));
        out.put(b"\n");
    }
}

/// Writes both texts where they differ.
pub fn put_difference(out: &mut Answer, what: &str, wanted: &[u8], came: &[u8]) {
    if wanted != came {
        put_titled(out, what, b" wanted", wanted);
        put_titled(out, what, b" came", came);
    }
}

fn put_titled(out: &mut Answer, what: &str, which: &[u8], bytes: &[u8]) {
    out.put(b"    ");
    out.put(what.as_bytes());
    out.put(which);
    out.put(b":");
    let mut starts = true;
    for byte in bytes {
        if starts {
            out.put(b"\n    | ");
        }
        starts = *byte == b'\n';
        if !starts {
            out.put(&[*byte]);
        }
    }
    out.put(if starts { b"\n" } else { b"~\n" });
}

/// Writes the reason why a case is not understood.
pub fn put_unreadable(out: &mut Answer, fault: Fault) {
    out.put(b"    not understood: ");
    out.put_fault(fault);
    out.put(b"\n");
}

// What a record tells of, by the names that Q.703 has for it.

ghost use Rattle.std.specs.Prelude.{◌≡◌, Some};
ghost use Rattle.recordview_lines.specs.Names.{unit_name, kind_text};

use records::RecordKind;
use std::fmt;

// A fill-in, link status or message signal unit, by its length; no unit is shorter than five octets.
pub fn unit_name(length: u16) -> &'static str
    ensures { result.now ≡ unit_name length }
{
    match length {
        0..=4 => "SU",
        5 => "FISU",
        6 | 7 => "LSSU",
        _ => "MSU",
    }
}

// A record's kind; of a good unit also which it is.
#[derive(Clone, Copy)]
pub struct KindText {
    pub kind: RecordKind,
    pub length: u16,
}

impl fmt::Display for KindText {
    ghost output = { λ k. Some (kind_text k.kind k.length) };

    fn fmt<W: fmt::Write>(&self, f: &mut fmt::Formatter<W>) -> fmt::Result {
        let unit = unit_name(self.length);
        match self.kind {
            RecordKind::HandedOver => write!(f, "{unit} handed over"),
            RecordKind::Dropped => write!(f, "{unit} dropped"),
            RecordKind::Lost => write!(f, "{unit} lost"),
            RecordKind::CheckWrong => write!(f, "check bits wrong"),
            RecordKind::NotWhole => write!(f, "not whole octets"),
            RecordKind::Short => write!(f, "short"),
            RecordKind::Long => write!(f, "long"),
            RecordKind::Abort => write!(f, "abort"),
            RecordKind::Tick => write!(f, "octet counting"),
        }
    }
}

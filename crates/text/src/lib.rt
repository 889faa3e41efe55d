// Octets as text.

#![tactic(auto)]

ghost use Rattle.std.specs.Prelude.{Some};
ghost use Rattle.text.specs.Hex.{hex_text};

use std::fmt;

// Octets in hex, two lower-case digits each; `-` where there are none.
#[derive(Clone, Copy)]
pub struct Hex<'a>(pub &'a [u8]);

impl fmt::Display for Hex<'_> {
    ghost output = { λ octets. Some (hex_text octets.0.now) };

    fn fmt<W: fmt::Write>(&self, f: &mut fmt::Formatter<W>) -> fmt::Result {
        if self.0.is_empty() {
            return f.write_str("-");
        }
        for &octet in self.0 {
            write!(f, "{octet:02x}")?;
        }
        Ok(())
    }
}

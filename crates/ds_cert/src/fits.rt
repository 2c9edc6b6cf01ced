//! What the types keep by themselves of a spelling's ranges. The functions change nothing and answer nothing: their contracts
//! are for proofs that use the laws.

ghost use Rattle.std.specs.Prelude.{◌≡◌};
ghost use Rattle.ds_cert.specs.Ranges.{CategoryFits, DelegationFits, DelegationRange, KeyFits, LabelFits, LaneCertFits, LaneCertRange};

use crate::delegation::Delegation;
use crate::lane::LaneCert;
use ds_label::{Category, Label, PubKey};

/// A key has 56 bytes.
pub fn show_key(key: &PubKey)
    ensures { KeyFits key.now }
{
    let bytes: &[u8] = &key.0;
    let _size = bytes.len();
}

/// A category's creator has 56 bytes, and its number fits eight.
pub fn show_category(category: &Category)
    ensures { CategoryFits category.now }
{
    show_key(&category.creator);
    let _number = category.number;
}

/// A label has at most 64 categories, which rise.
pub fn show_label(label: &Label)
    ensures { LabelFits label.now }
{
    let members = label.as_slice();
    for member in members {
        show_category(member);
    }
}

impl Delegation {
    /// With a signature in range all fields are.
    pub fn show_fits(&self)
        requires { DelegationRange self.now }
        ensures { DelegationFits self.now }
    {
        show_category(&self.category);
        show_key(&self.to);
        show_key(&self.by);
        let _from = self.from;
        let _until = self.until;
    }
}

impl LaneCert {
    /// With a lane number and a signature in range all fields are.
    pub fn show_fits(&self)
        requires { LaneCertRange self.now }
        ensures { LaneCertFits self.now }
    {
        show_key(&self.exporter);
        show_key(&self.receiver);
        show_label(&self.label);
        show_key(&self.key);
        let _from = self.from;
        let _until = self.until;
    }
}

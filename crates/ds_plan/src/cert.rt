//! Certificates of a document.

use crate::list::{PartList, PlaceList};
use ds_cert::Cert;
use ds_label::Category;

/// A certificate that hosts keep.
#[derive(Debug, Drop)]
pub enum CertSpec {
    /// A delegation that a host of the document signs.
    Made {
        /// The place of the host that signs.
        by: u32,
        /// The category.
        category: Category,
        /// The place of the host that may act for it.
        to: u32,
        /// The first moment at which it is valid.
        from: u64,
        /// The first moment at which it is no longer valid.
        until: u64,
        /// The places of the hosts that keep it.
        at: PlaceList,
    },
    /// A certificate as it stands in the document.
    Given {
        /// The certificate.
        cert: Cert,
        /// The places of the hosts that keep it.
        at: PlaceList,
    },
}

/// A list of certificates.
pub type CertSpecList = PartList<CertSpec>;

//! Each value has one spelling, and reading is its inverse. The functions do nothing: their contracts are the laws.

ghost use Rattle.ds_cert.specs.Laws.{IsSpelling, IsPrefixFree};
ghost use Rattle.ds_cert.specs.Ranges.{CategoryFits, LabelFits, DelegationFits, AddressFits, LaneCertFits};
ghost use Rattle.ds_cert.specs.Reading.{category_at, label_at, delegation_at, address_at, lane_cert_at};
ghost use Rattle.ds_cert.specs.Spelling.{spelling_of_category, spelling_of_label, spelling_of_delegation, spelling_of_address, spelling_of_lane_cert};

/// What is read, a category, a label or a certificate, is spelled so, and what is spelled so is read again, whatever follows.
pub fn reading_undoes_spelling()
    ensures category { IsSpelling CategoryFits spelling_of_category category_at }
    ensures label { IsSpelling LabelFits spelling_of_label label_at }
    ensures delegation { IsSpelling DelegationFits spelling_of_delegation delegation_at }
    ensures address { IsSpelling AddressFits spelling_of_address address_at }
    ensures lane { IsSpelling LaneCertFits spelling_of_lane_cert lane_cert_at }
{}

/// No two values have one spelling, and no spelling is a proper prefix of another one of its kind.
pub fn spellings_are_prefix_free()
    ensures category { IsPrefixFree CategoryFits spelling_of_category }
    ensures label { IsPrefixFree LabelFits spelling_of_label }
    ensures delegation { IsPrefixFree DelegationFits spelling_of_delegation }
    ensures address { IsPrefixFree AddressFits spelling_of_address }
    ensures lane { IsPrefixFree LaneCertFits spelling_of_lane_cert }
{}

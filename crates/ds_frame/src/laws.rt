//! What holds of the definitions. The functions do nothing: their contracts are the laws.

ghost use Rattle.std.specs.Prelude.{◌≡◌, ◌++◌, List, ℕ, Ok, None, Some};
ghost use Rattle.ds_cert.specs.Laws.{IsPrefixFree, IsSpelling};
ghost use Rattle.ds_cert.specs.Ranges.{LaneCertFits};
ghost use Rattle.ds_cert.specs.declared.lane.LaneCert.{LaneCert};
ghost use Rattle.ds_frame.specs.Checks.{read_item};
ghost use Rattle.ds_frame.specs.Laws.{IsFrame, IsHello, IsOpenBefore, IsReadByPieces, IsStreamOf, SignedFrameFits, spelling_of_signed_frame};
ghost use Rattle.ds_frame.specs.Outer.{read_outer_frame, read_outer_hello};
ghost use Rattle.ds_frame.specs.Ranges.{HelloFits, OuterFrameFits};
ghost use Rattle.ds_frame.specs.Spelling.{outer_spelling_of_frame, outer_spelling_of_hello, spelling_of_frame, spelling_of_hello};
ghost use Rattle.ds_frame.specs.Streams.{stream_by};
ghost use Rattle.ds_frame.specs.declared.item.Frame.{Frame};
ghost use Rattle.ds_frame.specs.declared.item.Item.{Item};

/// The fields of a hello or a frame that are read are spelled so, and what is spelled so is read again, whatever follows.
pub fn reading_undoes_spelling()
    ensures hello { IsSpelling HelloFits outer_spelling_of_hello read_outer_hello }
    ensures frame { IsSpelling OuterFrameFits outer_spelling_of_frame read_outer_frame }
{}

/// No two values have one outer spelling, and no outer spelling is a proper prefix of another one of its kind.
pub fn spellings_are_prefix_free()
    ensures hello { IsPrefixFree HelloFits outer_spelling_of_hello }
    ensures frame { IsPrefixFree OuterFrameFits outer_spelling_of_frame }
{}

/// The same of the values: no two lane certificates have one hello, no two frames with their signatures have one spelling, and
/// none of these is a proper prefix of another one of its kind.
pub fn values_are_prefix_free()
    ensures hello { IsPrefixFree LaneCertFits spelling_of_hello }
    ensures frame { IsPrefixFree SignedFrameFits spelling_of_signed_frame }
{}

/// Of a proper prefix of an outer spelling no more can be told: it is neither whole nor broken.
pub fn prefixes_are_open()
    ensures hello { IsOpenBefore HelloFits outer_spelling_of_hello read_outer_hello }
    ensures frame { IsOpenBefore OuterFrameFits outer_spelling_of_frame read_outer_frame }
{}

/// A hello whose signature is good, and a frame whose signature is good and begins with its number, are read again as they are
/// spelled, whatever follows.
pub fn items_are_read_again()
    ensures hello { (lane : LaneCert) (rest : List ℕ) → IsHello lane → read_item None (spelling_of_hello lane ++ rest) ≡ Ok (Item.Hello lane, rest) }
    ensures frame { (lane : LaneCert) (frame : Frame) (signature rest : List ℕ) → IsFrame lane.key frame signature → read_item (Some lane) (spelling_of_frame frame.number frame.bodies signature ++ rest) ≡ Ok (Item.Frame frame, rest) }
{}

/// A stream that is a good hello and then good frames under its key carries just these, and isn't broken.
pub fn streams_carry_what_was_written()
    ensures { IsStreamOf (stream_by read_item) }
{}

/// In whatever pieces a stream comes, and whenever its next item is asked for, the items handed out are those of the whole
/// stream, in their order, and the reader waits and fails as the whole stream does.
pub fn pieces_make_no_difference()
    ensures { IsReadByPieces read_item }
{}

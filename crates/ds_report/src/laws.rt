//! What is printed is the model's text. The functions do nothing: their contracts are the laws.

ghost use Rattle.ds_report.specs.Laws.{EachHostIsPrinted};

/// A running host's sections are those of the model's text.
pub fn hosts_are_printed()
    ensures { EachHostIsPrinted }
{}

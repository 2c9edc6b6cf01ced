//! Each message has one spelling, and reading is its inverse. The functions do nothing: their contracts are the laws.

ghost use Rattle.std.specs.Prelude.{◌≤◌, length};
ghost use Rattle.ds_cert.specs.Laws.{IsSpelling, IsPrefixFree};
ghost use Rattle.ds_msg.specs.declared.message.Message.{Message};
ghost use Rattle.ds_msg.specs.Ranges.{MessageFits};
ghost use Rattle.ds_msg.specs.Reading.{message_at};
ghost use Rattle.ds_msg.specs.Spelling.{spelling_of_message};

/// A message that is read is spelled so, and what is spelled so is read again, whatever follows.
pub fn reading_undoes_spelling()
    ensures { IsSpelling MessageFits spelling_of_message message_at }
{}

/// No two messages have one spelling, and no spelling is a proper prefix of another one.
pub fn spellings_are_prefix_free()
    ensures { IsPrefixFree MessageFits spelling_of_message }
{}

/// A message's spelling has at most 72,229 bytes.
pub fn messages_are_short()
    ensures { (m : Message) → MessageFits m → length (spelling_of_message m) ≤ 72229 }
{}

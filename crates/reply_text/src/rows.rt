//! What the definition of a line says of some texts, and what ties it to the reader of JSON.
ghost use Rattle.reply_text.specs.Rows.{AtRows};
ghost use Rattle.reply_text.specs.Leaves.{LineLaw};
ghost use Rattle.reply_text.specs.LeafData.{OneList};

/// The definition of a line at some texts.
pub fn rows_of_lines()
    ensures { AtRows }
{}

/// A text is read as an array of texts and whole numbers exactly where it is a line of these, and a line has one list of members.
pub fn law_of_lines()
    ensures law { LineLaw }
    ensures one { OneList }
{}

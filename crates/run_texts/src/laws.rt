//! What quoted texts tell, as a contract.
ghost use Rattle.run_texts.specs.Laws.{HasNoLoneSurrogate, StandsOnOneLine, TellsItsUnits};

/// A quoted text stands on one line: none of its units is below 32. It tells its units: two texts
/// that are quoted alike are the same. Each surrogate in it has its partner, so that its UTF-8 loses
/// nothing. The function does nothing.
pub fn quoted_texts_tell()
    ensures line { StandsOnOneLine }
    ensures units { TellsItsUnits }
    ensures paired { HasNoLoneSurrogate }
{}

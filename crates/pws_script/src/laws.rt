//! Laws of the grammar of scripts. Together they say that each text is the text of exactly one script, or is
//! refused at exactly one line.

ghost use Rattle.pws_script.specs.Scripts.{OneScript, ReadsWhatIsPrinted, LinesAreSpelled, ScriptsAreRead, ReadOrRefused, RegistersAreSpelled, NumbersAreDecimals, TextsAreQuoted};

/// Two scripts with one text are one script.
pub fn one_script()
    ensures { OneScript }
{}

/// What is printed is read as the script, unless memory runs out.
pub fn reads_what_is_printed()
    ensures { ReadsWhatIsPrinted }
{}

/// A line of a script of so many lines has no fault exactly where it ends by a line feed and is the text of a lawful
/// instruction.
pub fn lines_are_spelled()
    ensures { LinesAreSpelled }
{}

/// The text of a script isn't refused.
pub fn scripts_are_read()
    ensures { ScriptsAreRead }
{}

/// Each text is the text of a script, or is refused.
pub fn read_or_refused()
    ensures { ReadOrRefused }
{}

/// A word is read as a register exactly where it is the text of this register.
pub fn registers_are_spelled()
    ensures { RegistersAreSpelled }
{}

/// A word is read as a number exactly where it is the decimal of this number.
pub fn numbers_are_decimals()
    ensures { NumbersAreDecimals }
{}

/// What begins with a double quote is read as a text exactly where it is this text in double quotes.
pub fn texts_are_quoted()
    ensures { TextsAreQuoted }
{}

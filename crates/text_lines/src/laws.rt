// What lines and words are. A call stands for its clauses alone.
ghost use Rattle.text_lines.specs.TextLaws.{LinesOfTextLaw, LineNumbersLaw, WordsLaw};

/// What a line is, which number it has, and what a word is.
///
/// Lines end with line feeds, and bytes after the last line feed are a line too. One carriage return at the end of a
/// line is no part of it. Each line counts in the numbers of lines, a blank one too where blank lines are passed over.
/// Words are the longest runs of bytes other than spaces and tabs.
pub fn text_laws()
    ensures lines { LinesOfTextLaw }
    ensures numbers { LineNumbersLaw }
    ensures words { WordsLaw }
{}

//! The machine that tells the shapes of pieces, a byte at a time.
ghost use Rattle.std.specs.Prelude.{◌≡◌, ◌≤◌, cond, length, drop, map};
ghost use Rattle.fronts.specs.Machines.{walk, ahead};
ghost use Rattle.sql_ast.specs.Classes as classes;
ghost use Rattle.sql_lexer.specs.Machine as machine;

use sql_ast::{Class, LiteralPrefix, Mark, Quote, Quotes, Shape};

/// Where in a piece the machine stands.
#[derive(Clone, Copy, Debug, PartialEq, Eq)]
pub enum State {
    /// Before the first byte.
    Start,
    Word,
    Integer,
    /// Behind the letter r: a word may go on, or a literal begin.
    LetterR,
    /// Behind the letter b.
    LetterB,
    /// Behind both letters.
    BothLetters,
    /// Behind the first quote of a literal.
    Opened(Quote, LiteralPrefix),
    /// Behind two quotes, which are an empty literal, or the start of a tripled one.
    Twice(Quote, LiteralPrefix),
    /// Within marks that enclose a piece of this shape.
    Within(Mark, Shape),
    /// Behind a backslash there.
    Escape(Mark, Shape),
    /// Within three quotes.
    Triple(Quote, LiteralPrefix),
    /// Behind one quote there, and behind two.
    TripleOne(Quote, LiteralPrefix),
    TripleTwo(Quote, LiteralPrefix),
    /// Behind a backslash there.
    TripleEscape(Quote, LiteralPrefix),
    /// Behind `@`, and in the name behind it.
    At,
    Parameter,
    /// Behind a sign that may begin a longer one.
    Minus,
    Less,
    Greater,
    Bar,
    Bang,
    /// In a comment to the end of the line.
    Line,
    Slash,
    /// Behind `/*`, and behind a star there.
    Block,
    BlockStar,
    /// Nothing goes on behind a piece of this shape.
    Closed(Shape),
}

fn is_letter(class: Class) -> bool
    ensures { result ≡ classes.is_letter class }
{
    matches!(class, Class::LetterR | Class::LetterB | Class::Letter)
}

fn is_inner(class: Class) -> bool
    ensures { result ≡ classes.is_inner class }
{
    matches!(
        class,
        Class::Digit | Class::LetterR | Class::LetterB | Class::Letter
    )
}

fn is_letter_r(class: Class) -> bool
    ensures { result ≡ machine.is_letter_r class }
{
    matches!(class, Class::LetterR)
}

fn is_letter_b(class: Class) -> bool
    ensures { result ≡ machine.is_letter_b class }
{
    matches!(class, Class::LetterB)
}

fn is_backslash(class: Class) -> bool
    ensures { result ≡ classes.is_backslash class }
{
    matches!(class, Class::Backslash)
}

fn is_line_break(class: Class) -> bool
    ensures { result ≡ classes.is_line_break class }
{
    matches!(class, Class::LineBreak)
}

fn is_star(class: Class) -> bool
    ensures { result ≡ classes.is_star class }
{
    matches!(class, Class::Star)
}

fn is_slash(class: Class) -> bool
    ensures { result ≡ classes.is_slash class }
{
    matches!(class, Class::Slash)
}

fn is_after_less(class: Class) -> bool
    ensures { result ≡ classes.is_after_less class }
{
    matches!(class, Class::Less | Class::Equal | Class::Greater)
}

fn is_equal(class: Class) -> bool
    ensures { result ≡ classes.is_equal class }
{
    matches!(class, Class::Equal)
}

fn is_greater(class: Class) -> bool
    ensures { result ≡ classes.is_greater class }
{
    matches!(class, Class::Greater)
}

fn is_bar(class: Class) -> bool
    ensures { result ≡ classes.is_bar class }
{
    matches!(class, Class::Bar)
}

fn is_minus(class: Class) -> bool
    ensures { result ≡ machine.is_minus class }
{
    matches!(class, Class::Minus)
}

fn same_quote(left: Quote, right: Quote) -> bool
    ensures { result ≡ classes.same_quote left right }
{
    match (left, right) {
        (Quote::Single, Quote::Single) => true,
        (Quote::Double, Quote::Double) => true,
        (Quote::Single, Quote::Double) => false,
        (Quote::Double, Quote::Single) => false,
    }
}

fn same_mark(left: Mark, right: Mark) -> bool
    ensures { result ≡ classes.same_mark left right }
{
    match left {
        Mark::Quote(quote) => match right {
            Mark::Quote(other) => same_quote(quote, other),
            Mark::Backquote => false,
        },
        Mark::Backquote => match right {
            Mark::Quote(_) => false,
            Mark::Backquote => true,
        },
    }
}

fn closes(mark: Mark, class: Class) -> bool
    ensures { result ≡ classes.closes mark class }
{
    match class {
        Class::Mark(other) => same_mark(mark, other),
        _ => false,
    }
}

fn start(class: Class) -> Option<State>
    ensures { result ≡ machine.start class }
{
    match class {
        Class::LetterR => Some(State::LetterR),
        Class::LetterB => Some(State::LetterB),
        Class::Letter => Some(State::Word),
        Class::Digit => Some(State::Integer),
        Class::LineBreak | Class::Space => Some(State::Closed(Shape::Gap)),
        Class::Mark(Mark::Quote(quote)) => Some(State::Opened(quote, LiteralPrefix::Plain)),
        Class::Mark(Mark::Backquote) => Some(State::Within(Mark::Backquote, Shape::QuotedName)),
        Class::Star | Class::Equal | Class::Sign => Some(State::Closed(Shape::Sign)),
        Class::Slash => Some(State::Slash),
        Class::Hash => Some(State::Line),
        Class::Minus => Some(State::Minus),
        Class::Less => Some(State::Less),
        Class::Greater => Some(State::Greater),
        Class::Bar => Some(State::Bar),
        Class::Bang => Some(State::Bang),
        Class::At => Some(State::At),
        Class::Backslash | Class::Other => None,
    }
}

/// A quote opens a literal.
fn opened(prefix: LiteralPrefix, class: Class) -> Option<State>
    ensures { result ≡ machine.opened prefix class }
{
    match class {
        Class::Mark(Mark::Quote(quote)) => Some(State::Opened(quote, prefix)),
        _ => None,
    }
}

/// The state, where the test holds.
fn when(test: bool, state: State) -> Option<State>
    ensures { result ≡ cond test (Some state) None }
{
    if test { Some(state) } else { None }
}

/// Behind one of the letters r and b. The test says whether the other one comes.
fn behind_letter(prefix: LiteralPrefix, class: Class, other: bool) -> Option<State>
    ensures { result ≡ cond (classes.is_inner class) (cond other (Some State.BothLetters) (Some State.Word)) (machine.opened prefix class) }
{
    if !is_inner(class) {
        opened(prefix, class)
    } else if other {
        Some(State::BothLetters)
    } else {
        Some(State::Word)
    }
}

fn behind_both(class: Class) -> Option<State>
    ensures { result ≡ cond (classes.is_inner class) (Some State.Word) (machine.opened LiteralPrefix.RawBytes class) }
{
    if is_inner(class) {
        Some(State::Word)
    } else {
        opened(LiteralPrefix::RawBytes, class)
    }
}

/// Within marks: the mark leads to the state `closed`.
fn within(mark: Mark, shape: Shape, closed: State, class: Class) -> Option<State>
    ensures { result ≡ machine.within mark shape closed class }
{
    if closes(mark, class) {
        Some(closed)
    } else if is_backslash(class) {
        Some(State::Escape(mark, shape))
    } else if is_line_break(class) {
        None
    } else {
        Some(State::Within(mark, shape))
    }
}

/// Within three quotes: a quote leads to the state `closed`.
fn thrice(quote: Quote, prefix: LiteralPrefix, closed: State, class: Class) -> Option<State>
    ensures { result ≡ machine.thrice quote prefix closed class }
{
    if closes(Mark::Quote(quote), class) {
        Some(closed)
    } else if is_backslash(class) {
        Some(State::TripleEscape(quote, prefix))
    } else {
        Some(State::Triple(quote, prefix))
    }
}

fn at(class: Class) -> Option<State>
    ensures { result ≡ cond (classes.is_letter class) (Some State.Parameter) (cond (classes.closes Mark.Backquote class) (Some (State.Within Mark.Backquote Shape.QuotedParameter)) None) }
{
    if is_letter(class) {
        Some(State::Parameter)
    } else {
        when(
            closes(Mark::Backquote, class),
            State::Within(Mark::Backquote, Shape::QuotedParameter),
        )
    }
}

fn minus(class: Class) -> Option<State>
    ensures { result ≡ cond (machine.is_minus class) (Some State.Line) (cond (classes.is_greater class) (Some (State.Closed Shape.Sign)) None) }
{
    if is_minus(class) {
        Some(State::Line)
    } else {
        when(is_greater(class), State::Closed(Shape::Sign))
    }
}

fn in_block(class: Class) -> Option<State>
    ensures { result ≡ machine.in_block class }
{
    if is_star(class) {
        Some(State::BlockStar)
    } else {
        Some(State::Block)
    }
}

fn behind_star(class: Class) -> Option<State>
    ensures { result ≡ cond (classes.is_slash class) (Some (State.Closed Shape.Gap)) (machine.in_block class) }
{
    if is_slash(class) {
        Some(State::Closed(Shape::Gap))
    } else {
        in_block(class)
    }
}

/// The state behind a byte of this class, if the piece may go on with it.
#[tactic(auto, unfolding(crate::specs::Machine::step))]
pub fn step(state: State, class: Class) -> Option<State>
    ensures { result ≡ machine.step state class }
{
    match state {
        State::Start => start(class),
        State::Word => when(is_inner(class), State::Word),
        State::Integer => when(is_inner(class), State::Integer),
        State::LetterR => behind_letter(LiteralPrefix::Raw, class, is_letter_b(class)),
        State::LetterB => behind_letter(LiteralPrefix::Bytes, class, is_letter_r(class)),
        State::BothLetters => behind_both(class),
        State::Opened(quote, prefix) => within(
            Mark::Quote(quote),
            Shape::Literal(prefix, Quotes::One),
            State::Twice(quote, prefix),
            class,
        ),
        State::Twice(quote, prefix) => when(
            closes(Mark::Quote(quote), class),
            State::Triple(quote, prefix),
        ),
        State::Within(mark, shape) => within(mark, shape, State::Closed(shape), class),
        State::Escape(mark, shape) => when(!is_line_break(class), State::Within(mark, shape)),
        State::Triple(quote, prefix) => thrice(
            quote,
            prefix,
            State::TripleOne(quote, prefix),
            class,
        ),
        State::TripleOne(quote, prefix) => {
            thrice(quote, prefix, State::TripleTwo(quote, prefix), class)
        }
        State::TripleTwo(quote, prefix) => thrice(
            quote,
            prefix,
            State::Closed(Shape::Literal(prefix, Quotes::Three)),
            class,
        ),
        State::TripleEscape(quote, prefix) => Some(State::Triple(quote, prefix)),
        State::At => at(class),
        State::Parameter => when(is_inner(class), State::Parameter),
        State::Minus => minus(class),
        State::Less => when(is_after_less(class), State::Closed(Shape::Sign)),
        State::Greater => when(is_equal(class), State::Closed(Shape::Sign)),
        State::Bar => when(is_bar(class), State::Closed(Shape::Sign)),
        State::Bang => when(is_equal(class), State::Closed(Shape::Sign)),
        State::Line => when(!is_line_break(class), State::Line),
        State::Slash => when(is_star(class), State::Block),
        State::Block => in_block(class),
        State::BlockStar => behind_star(class),
        State::Closed(_) => None,
    }
}

/// The shape of the piece that ends here, if one does.
#[tactic(auto, unfolding(crate::specs::Machine::whole))]
pub fn whole(state: State) -> Option<Shape>
    ensures { result ≡ machine.whole state }
{
    match state {
        State::Word | State::LetterR | State::LetterB | State::BothLetters => Some(Shape::Word),
        State::Integer => Some(Shape::Integer),
        State::Twice(_, prefix) => Some(Shape::Literal(prefix, Quotes::One)),
        State::Parameter => Some(Shape::Parameter),
        State::Minus | State::Less | State::Greater | State::Bar => Some(Shape::Sign),
        State::Line => Some(Shape::Gap),
        State::Closed(shape) => Some(shape),
        _ => None,
    }
}

/// What a byte is to the shapes of pieces.
#[tactic(auto, unfolding(sql_ast::specs::Classes::class))]
pub fn class(byte: u8) -> Class
    ensures { result ≡ classes.class byte }
{
    match byte {
        b'r' | b'R' => Class::LetterR,
        b'b' | b'B' => Class::LetterB,
        b'a'..=b'z' | b'A'..=b'Z' | b'_' => Class::Letter,
        b'0'..=b'9' => Class::Digit,
        b'\n' | b'\r' => Class::LineBreak,
        9..=13 | b' ' => Class::Space,
        b'\'' => Class::Mark(Mark::Quote(Quote::Single)),
        b'"' => Class::Mark(Mark::Quote(Quote::Double)),
        b'`' => Class::Mark(Mark::Backquote),
        b'\\' => Class::Backslash,
        b'*' => Class::Star,
        b'/' => Class::Slash,
        b'#' => Class::Hash,
        b'-' => Class::Minus,
        b'<' => Class::Less,
        b'=' => Class::Equal,
        b'>' => Class::Greater,
        b'|' => Class::Bar,
        b'!' => Class::Bang,
        b'@' => Class::At,
        b'(' | b')' | b'[' | b']' | b',' | b'.' | b';' | b'+' | b'~' | b'&' | b'^' => Class::Sign,
        _ => Class::Other,
    }
}

/// The end of the longest front from a place on that the machine goes over, and its state there.
pub fn scan(text: &[u8], from: usize) -> (usize, State)
    requires { from ≤ length text.now }
    ensures { result ≡ ahead from (walk machine.step State.Start (map classes.class (drop from text.now))) }
{
    let mut at = from;
    let mut state = State::Start;
    'bytes: while at < text.len() {
        match step(state, class(text[at])) {
            Some(next) => state = next,
            None => return (at, state),
        }
        at += 1;
    }
    (at, state)
}

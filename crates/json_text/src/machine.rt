// The reader's state, and what each byte makes of it.
ghost use Rattle.std.specs.Prelude.{◌≡◌, ◌==◌, true, length, nat_le, Ok, Err, IfOk, IfErr};
ghost use Rattle.json_text.specs.Values.{json_of};
ghost use Rattle.json_text.specs.Stacks.{opened_of};
ghost use Rattle.json_text.specs.NumberSteps.{next_digit};
ghost use Rattle.json_text.specs.CharacterSteps.{is_sound, take_byte};
ghost use Rattle.json_text.specs.Modes.{is_sound_mode};
ghost use Rattle.json_text.specs.Steps.{progress_of, nothing, step, finish, end_mode, Makes, Ends, KeepsBounds, at_start, go_on, go, between, bare_between, begin, begin_text, begin_number, enter, behind, close, end_value, word_value, in_word, in_number, end_number, in_text, end_text};

use crate::Tree;
use crate::character::{Part, Taken, take_byte};
use crate::digits::{Digits, is_whole, next_digit};
use crate::fault::Stop;
use crate::mode::{Begin, Mode, Word, begin_of, is_space, word_text};
use crate::stack::{
    Frame, Stack, add, add_name, close, empty_stack, has_list, has_members, is_empty, is_full, push,
};
use agg_base::Text;
use std::alloc::Global;

// What has come of a text of JSON.
#[derive(Drop)]
pub(crate) struct Machine {
    // What is due.
    mode: Mode,
    // The characters so far of a number, a text or a name.
    token: String,
    // The lists and members that are open.
    stack: Stack,
    // The value of the whole text, once it has ended.
    root: Option<Tree>,
}

impl Machine {
    // Nothing has come.
    pub(crate) fn new(alloc: Global) -> Machine
        ensures { progress_of result ≡ nothing }
    {
        Machine {
            mode: Mode::Start,
            token: String::new(alloc),
            stack: empty_stack(alloc),
            root: None,
        }
    }

    // Takes the next byte.
    #[tactic(auto, unfolding(crate::specs::Steps::step))]
    pub(crate) fn step(&mut self, alloc: Global, byte: u8) -> Result<(), Stop>
        requires { is_sound_mode self.old.mode ≡ true }
        ensures made { Makes result (step 64 byte (progress_of self.old)) (progress_of self.new) }
        ensures sound { KeepsBounds result self.new.mode }
    {
        match self.mode {
            Mode::Text(part) => self.in_text(alloc, part, byte),
            Mode::Number(digits) => self.in_number(alloc, digits, byte),
            Mode::Word(word, done) => self.in_word(word, done, byte),
            Mode::Start => self.at_start(alloc, byte),
            Mode::Mark => self.go_on(byte, 187, Mode::MarkEnd),
            Mode::MarkEnd => self.go_on(byte, 191, Mode::Value),
            mode => self.between(alloc, mode, byte),
        }
    }

    // The value, where the bytes so far are a text of JSON.
    #[tactic(auto, unfolding(crate::specs::Steps::finish))]
    pub(crate) fn finish(self, alloc: Global) -> Result<Tree, Stop>
        ensures { Ends result (finish (progress_of self)) }
    {
        let mut machine = self;
        machine.end_last(alloc)?;
        let Machine {
            mode: _,
            token: _,
            stack: _,
            root,
        } = machine;
        match root {
            Some(tree) => Ok(tree),
            None => Err(Stop::Bad),
        }
    }

    // The end of a number that ends with the text.
    fn end_last(&mut self, alloc: Global) -> Result<(), Stop>
        ensures { Makes result (Ok (end_mode self.old.mode (progress_of self.old))) (progress_of self.new) }
    {
        if let Mode::Number(digits) = self.mode {
            if is_whole(digits) {
                self.end_number(alloc)?;
            }
        }
        Ok(())
    }

    // The first byte of all.
    fn at_start(&mut self, alloc: Global, byte: u8) -> Result<(), Stop>
        ensures made { Makes result (at_start 64 byte (progress_of self.old)) (progress_of self.new) }
        ensures sound { KeepsBounds result self.new.mode }
    {
        if byte == 239 {
            self.mode = Mode::Mark;
            return Ok(());
        }
        self.mode = Mode::Value;
        self.between(alloc, Mode::Value, byte)
    }

    // A byte that has to be this one.
    fn go_on(&mut self, byte: u8, due: u8, next: Mode) -> Result<(), Stop>
        requires { is_sound_mode next ≡ true }
        ensures made { Makes result (go_on byte due next (progress_of self.old)) (progress_of self.new) }
        ensures sound { KeepsBounds result self.new.mode }
    {
        if byte != due {
            return Err(Stop::Bad);
        }
        self.mode = next;
        Ok(())
    }

    // A byte between tokens, or the first one of a token.
    fn between(&mut self, alloc: Global, mode: Mode, byte: u8) -> Result<(), Stop>
        requires { is_sound_mode self.old.mode ≡ true }
        ensures made { Makes result (between 64 mode byte (progress_of self.old)) (progress_of self.new) }
        ensures sound { KeepsBounds result self.new.mode }
    {
        if is_space(byte) {
            return Ok(());
        }
        self.bare_between(alloc, mode, byte)
    }

    // The same of a byte that is no white space.
    fn bare_between(&mut self, alloc: Global, mode: Mode, byte: u8) -> Result<(), Stop>
        ensures made { Makes result (bare_between 64 mode byte (progress_of self.old)) (progress_of self.new) }
        ensures sound { KeepsBounds result self.new.mode }
    {
        match mode {
            Mode::FirstItem if byte == b']' => self.close(alloc),
            Mode::FirstItem | Mode::Value => self.begin(alloc, byte),
            Mode::FirstName if byte == b'}' => self.close(alloc),
            Mode::FirstName | Mode::Name => self.begin_text(byte),
            Mode::Colon => self.go_on(byte, b':', Mode::Value),
            _ => self.behind(alloc, byte),
        }
    }

    // The first byte of a value.
    fn begin(&mut self, alloc: Global, byte: u8) -> Result<(), Stop>
        ensures made { Makes result (begin 64 byte (progress_of self.old)) (progress_of self.new) }
        ensures sound { KeepsBounds result self.new.mode }
    {
        match begin_of(byte) {
            None => Err(Stop::Bad),
            Some(Begin::List) => self.enter(Frame::List(Vec::new(alloc)), Mode::FirstItem),
            Some(Begin::Members) => self.enter(Frame::Members(Vec::new(alloc)), Mode::FirstName),
            Some(Begin::Text) => self.begin_text(b'"'),
            Some(Begin::Number(digits)) => self.begin_number(digits, byte),
            Some(Begin::Word(word)) => {
                self.mode = Mode::Word(word, 1);
                Ok(())
            }
        }
    }

    // The opening quote.
    fn begin_text(&mut self, byte: u8) -> Result<(), Stop>
        ensures made { Makes result (begin_text byte (progress_of self.old)) (progress_of self.new) }
        ensures sound { KeepsBounds result self.new.mode }
    {
        if byte != b'"' {
            return Err(Stop::Bad);
        }
        self.token.clear();
        self.mode = Mode::Text(Part::Due);
        Ok(())
    }

    // The first byte of a number.
    fn begin_number(&mut self, digits: Digits, byte: u8) -> Result<(), Stop>
        ensures made { Makes result (Ok (begin_number digits byte (progress_of self.old))) (progress_of self.new) }
        ensures sound { KeepsBounds result self.new.mode }
    {
        self.token.clear();
        self.token.push(byte as char)?;
        self.mode = Mode::Number(digits);
        Ok(())
    }

    // An opening bracket or brace.
    fn enter(&mut self, frame: Frame, next: Mode) -> Result<(), Stop>
        requires { is_sound_mode next ≡ true }
        ensures made { Makes result (enter 64 (opened_of frame) next (progress_of self.old)) (progress_of self.new) }
        ensures sound { KeepsBounds result self.new.mode }
    {
        if is_full(&self.stack) {
            return Err(Stop::Deep);
        }
        push(&mut self.stack, frame)?;
        self.mode = next;
        Ok(())
    }

    // A byte behind a value.
    fn behind(&mut self, alloc: Global, byte: u8) -> Result<(), Stop>
        ensures made { Makes result (behind byte (progress_of self.old)) (progress_of self.new) }
        ensures sound { KeepsBounds result self.new.mode }
    {
        let in_list = has_list(&self.stack);
        let in_members = has_members(&self.stack);
        if byte == b',' && in_list {
            self.mode = Mode::Value;
            return Ok(());
        }
        if byte == b',' && in_members {
            self.mode = Mode::Name;
            return Ok(());
        }
        if byte == b']' && in_list {
            return self.close(alloc);
        }
        if byte == b'}' && in_members {
            return self.close(alloc);
        }
        Err(Stop::Bad)
    }

    // A closing bracket or brace.
    fn close(&mut self, alloc: Global) -> Result<(), Stop>
        ensures made { Makes result (Ok (close (progress_of self.old))) (progress_of self.new) }
        ensures sound { KeepsBounds result self.new.mode }
    {
        let tree = close(alloc, &mut self.stack)?;
        self.end_value(tree)
    }

    // A value has ended.
    fn end_value(&mut self, tree: Tree) -> Result<(), Stop>
        ensures made { Makes result (Ok (end_value (json_of tree) (progress_of self.old))) (progress_of self.new) }
        ensures sound { KeepsBounds result self.new.mode }
    {
        self.mode = Mode::After;
        self.token.clear();
        if is_empty(&self.stack) {
            self.root = Some(tree);
            return Ok(());
        }
        add(&mut self.stack, tree)?;
        Ok(())
    }

    // A byte in a word.
    fn in_word(&mut self, word: Word, done: u8, byte: u8) -> Result<(), Stop>
        ensures made { Makes result (in_word word done byte (progress_of self.old)) (progress_of self.new) }
        ensures sound { KeepsBounds result self.new.mode }
    {
        let text = word_text(word);
        let place = done as usize;
        if place >= text.len() || text[place] != byte {
            return Err(Stop::Bad);
        }
        if place + 1 < text.len() {
            self.mode = Mode::Word(word, done + 1);
            return Ok(());
        }
        self.end_value(word_value(word))
    }

    // A byte in a number or behind it.
    fn in_number(&mut self, alloc: Global, digits: Digits, byte: u8) -> Result<(), Stop>
        ensures made { Makes result (in_number 64 (next_digit digits byte) digits byte (progress_of self.old)) (progress_of self.new) }
        ensures sound { KeepsBounds result self.new.mode }
    {
        if let Some(next) = next_digit(digits, byte) {
            self.token.push(byte as char)?;
            self.mode = Mode::Number(next);
            return Ok(());
        }
        if !is_whole(digits) {
            return Err(Stop::Bad);
        }
        self.end_number(alloc)?;
        self.between(alloc, Mode::After, byte)
    }

    // A number has ended.
    fn end_number(&mut self, alloc: Global) -> Result<(), Stop>
        ensures made { Makes result (Ok (end_number (progress_of self.old))) (progress_of self.new) }
        ensures sound { KeepsBounds result self.new.mode }
    {
        let number = Text::of(alloc, self.token.as_str())?;
        self.end_value(Tree::Number(number))
    }

    // A byte in a text or a name.
    fn in_text(&mut self, alloc: Global, part: Part, byte: u8) -> Result<(), Stop>
        requires { is_sound part ≡ true }
        ensures made { Makes result (in_text (take_byte part byte) (progress_of self.old)) (progress_of self.new) }
        ensures sound { KeepsBounds result self.new.mode }
    {
        match take_byte(part, byte) {
            None => Err(Stop::Bad),
            Some(Taken::More(more)) => {
                self.mode = Mode::Text(more);
                Ok(())
            }
            Some(Taken::Whole(character)) => {
                self.token.push(character)?;
                self.mode = Mode::Text(Part::Due);
                Ok(())
            }
            Some(Taken::Quote) => self.end_text(alloc),
        }
    }

    // The closing quote.
    fn end_text(&mut self, alloc: Global) -> Result<(), Stop>
        ensures made { Makes result (Ok (end_text (progress_of self.old))) (progress_of self.new) }
        ensures sound { KeepsBounds result self.new.mode }
    {
        let text = Text::of(alloc, self.token.as_str())?;
        if has_members(&self.stack) {
            add_name(&mut self.stack, text)?;
            self.mode = Mode::Colon;
            self.token.clear();
            return Ok(());
        }
        self.end_value(Tree::Str(text))
    }
}

// The value of a word.
fn word_value(word: Word) -> Tree
    ensures { json_of result ≡ word_value word }
{
    match word {
        Word::Null => Tree::Null,
        Word::True => Tree::Truth(true),
        Word::False => Tree::Truth(false),
    }
}

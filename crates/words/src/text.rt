// A string's word: its text's place in the pool.
//
// Each function is shown equal to `spanWord` and `wordSpan` of `rules`, for every u32. Packing asks that the length has 7 bits.
ghost use Rattle.rules.specs.Constants.{mostChars};
ghost use Rattle.std.specs.Prelude.{◌≡◌, ◌≤◌};
ghost use Rattle.rules.specs.Word.{spanWord, wordSpan, spanSpare};
ghost use Rattle.words.specs.Runs as Runs;

// A string's word: start in the text pool (16 bits), length (7), 9 zero bits.
#[derive(Clone, Copy)]
pub struct StringWord(pub u32);

impl StringWord {
    #[tactic(auto, unfolding(rules::specs::Word::spanWord))]
    pub fn pack(start: u16, length: u16) -> StringWord
        requires { length ≤ mostChars }
        ensures { result.0 ≡ spanWord (Runs.span start length) }
    {
        StringWord((u32::from(start) << 16) + (u32::from(length) << 9))
    }

    #[tactic(auto, unfolding(rules::specs::Word::wordSpan))]
    pub fn start(self) -> u16
        ensures { result ≡ (wordSpan self.0).start }
    {
        (self.0 >> 16) as u16
    }

    #[tactic(auto, unfolding(rules::specs::Word::wordSpan))]
    pub fn length(self) -> u16
        ensures { result ≡ (wordSpan self.0).size }
    {
        ((self.0 >> 9) % 128) as u16
    }

    // The bits that must be zero.
    #[tactic(auto, unfolding(rules::specs::Word::spanSpare))]
    pub fn spare(self) -> u32
        ensures { result ≡ spanSpare self.0 }
    {
        self.0 % 512
    }
}

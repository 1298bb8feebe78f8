// Words in a list, and the name in an argument.
ghost use Rattle.std.specs.Prelude.{◌≡◌, ◌+◌, ◌≤◌, length, drop};
ghost use Rattle.program_words.specs.Words.{before, place_in};

// The place of the first byte b from a place on, or the end of the text. The program here asks from 0; what it promises stays.
#[tactic(auto, unfolding(crate::specs::Words::before))]
pub fn end_of(t: &[u8], from: usize, b: u8) -> usize
    ensures { result ≡ from + before b (drop from t.now) }
{
    match t.get(from..) {
        Some(rest) => from + rest.iter().position(|x| *x == b).unwrap_or(rest.len()),
        None => from,
    }
}

// The bytes of an argument that name an option: all up to a `=`.
#[tactic(auto, using(crate::proofs::Texts::before_most))]
pub fn name_end(t: &[u8]) -> usize
    ensures upper_bound { result ≤ length t.now }
    ensures value { result ≡ before 61 t.now }
{
    end_of(t, 0, b'=')
}

// The place of a word in a list of words with a blank behind each: as many words as blanks. The program here asks for none; what it promises stays.
pub fn place(list: &[u8], word: &[u8]) -> Option<usize>
    ensures { result ≡ place_in list.now word.now }
{
    let words = list.iter().filter(|b| **b == b' ').count();
    list.split(|b| *b == b' ')
        .take(words)
        .position(|w| w == word)
}

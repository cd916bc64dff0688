// What programs print of a case. The checker knows nothing of what is written out, so these have no contracts.
// A write that fails is passed over: the comparison with what should have been printed tells.
use std::fmt::Display;

// Prints words.
pub fn print_words(rt: &impl Print, words: &[u8]) {
    let _ = rt.write_all(words);
}

// Prints a word and a number behind it.
pub fn print_number<N: Display + Drop>(rt: &impl Print, word: &[u8], n: N) {
    print_words(rt, word);
    let _ = rt.print(n);
}

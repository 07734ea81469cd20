//! Numbers in a script.
ghost use Rattle.std.specs.Prelude.{◌≡◌, ◌≤◌, [], map, IfSome, option_map, length};
ghost use Rattle.arrayvec.specs.ArrayVec.{array_vec_len};
ghost use Rattle.query_rules.specs.Grammar.{numbers_in};

use arrayvec::ArrayVec;
use query_rules::number;

/// Puts the numbers that words write into an empty list, where each writes one.
///
/// The list stays where it is, since one that is handed back is moved from hand to hand.
pub fn numbers(words: &[&[u8]], numbers: &mut ArrayVec<u64, 5>) -> Option<()>
    requires few { length words.now ≤ 5 }
    requires empty { numbers.old.items ≡ [] }
    ensures found { option_map (λ _. numbers.new.items) result ≡ numbers_in (map (λ w. w.now) words.now) }
    ensures len { IfSome result (λ _. array_vec_len numbers.new ≡ length words.now) }
{
    let mut rest = words;
    while let [word, after @ ..] = rest {
        numbers.push(number(word)?);
        rest = after;
    }
    Some(())
}

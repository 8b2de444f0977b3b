// The entries for hosts in C: each answers with packed numbers. `include/lunarbugle.h` declares them.
#![tactic(auto)]

ghost use Rattle.std.specs.Prelude.{◌≡◌, ◌+◌, ◌*◌, ◌%◌, ◌^◌, ◌<◌};
ghost use Rattle.paper.specs.Shipped.{shipped};
ghost use Rattle.paper.specs.Words.{outcome, stem};
ghost use Rattle.lists.specs.Calls.{listed_outcome};
ghost use Rattle.texts.specs.Texts.{text_outcome};
ghost use Rattle.texts.specs.ListedTexts.{listed_text};
ghost use Rattle.lunarbugle.specs.Packed.{packed, packed_text, packed_listed, packed_listed_text, PacksCheck};

use answers::{Reply, TextReply};

// A call's numbers as one: the number, plus 256 times the value, which has 56 bits.
fn pack(reply: Reply) -> u64
    ensures { result ≡ reply.number + 256 * (reply.value % 2 ^ 56) }
{
    let number = u64::from(reply.number);
    let value = (reply.value % (1 << 56)) as u64;
    number + 256 * value
}

// Those of a text: the number, plus 256 times the words stemmed, plus 2^32 times the words left. With 10 the offset has the room of both
// counts.
fn pack_text(reply: TextReply) -> u64
    requires { reply.number + 256 * (reply.stemmed % 2 ^ 56) + 2 ^ 32 * reply.left < 2 ^ 64 }
    ensures { result ≡ reply.number + 256 * (reply.stemmed % 2 ^ 56) + 2 ^ 32 * reply.left }
{
    let number = u64::from(reply.number);
    let stemmed = (reply.stemmed % (1 << 56)) as u64;
    let left = reply.left as u64;
    number + 256 * stemmed + (1 << 32) * left
}

// The word stemmer: 01's number, plus 256 times the value returned besides it.
#[unsafe(no_mangle)]
pub extern "C" fn lunarbugle_stem(word: &mut [u8]) -> u64
    ensures value { result ≡ packed (outcome word.old) }
    ensures word_after { word.new ≡ (outcome word.old).place }
{
    let reply = answers::in_numbers(words::stem(word));
    pack(reply)
}

// The text run: 01's number, plus 256 times the words stemmed, plus 2^32 times the words left.
#[unsafe(no_mangle)]
pub extern "C" fn lunarbugle_text(text: &mut [u8]) -> u64
    ensures value { result ≡ packed_text (text_outcome (stem shipped) text.old) }
    ensures text_after { text.new ≡ (text_outcome (stem shipped) text.old).text }
{
    let reply = answers::text_in_numbers(texts::run(text));
    pack_text(reply)
}

// The word stemmer with an exception list: 01's number, plus 256 times the value returned besides it.
#[unsafe(no_mangle)]
pub extern "C" fn lunarbugle_stem_listed(list: &[u8], word: &mut [u8]) -> u64
    ensures value { result ≡ packed_listed (listed_outcome (stem shipped) list.now word.old) }
    ensures word_after { word.new ≡ (listed_outcome (stem shipped) list.now word.old).place }
{
    let reply = answers::in_numbers(exceptions::stem(list, word));
    pack(reply)
}

// The text run with an exception list, packed as without one.
#[unsafe(no_mangle)]
pub extern "C" fn lunarbugle_text_listed(list: &[u8], text: &mut [u8]) -> u64
    ensures value { result ≡ packed_listed_text (listed_text (stem shipped) list.now text.old) }
    ensures text_after { text.new ≡ (listed_text (stem shipped) list.now text.old).text }
{
    let reply = answers::text_in_numbers(texts::run_listed(list, text));
    pack_text(reply)
}

// The check of a supplier's vocabulary: 01's number, plus 256 times the line's number.
#[unsafe(no_mangle)]
pub extern "C" fn lunarbugle_vocabulary(list: &[u8]) -> u64
    ensures { PacksCheck list.now result }
{
    let reply = answers::in_numbers(vocabularies::check(list));
    pack(reply)
}

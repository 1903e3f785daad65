// A list that an array has, for any kind of member: all members are read and counted, the first are kept in words that are lent.
ghost use Rattle.std.specs.Prelude.{◌≡◌, ◌≤◌, ◌*◌, ℕ, List, [], length};
ghost use Rattle.tlv_reader.specs.declared.Element.{Element};
ghost use Rattle.tlv_reader.specs.Octet.{array};
ghost use Rattle.tlv_reader.specs.Walk.{Got, fold_at};
ghost use Rattle.im_members.specs.Array.{each_step};
ghost use Rattle.im_members.proofs.PassLaws.{Reads};
ghost use Rattle.im_requests.specs.Message.{snoc, list_on, keep_more, list_with, list_read, read_as};

use super::{Listed, NO_LIST};
use im_members::MemberAt;
use tlv_reader::{Cursor, Element};

// A kind of member: what one means and how the code holds it, how many are kept, each in how many words and in which; and how one is read:
// by its place, by its head, and a whole list of them.
pub trait Member: Copy {
    ghost Meant: { Type 0 };

    ghost held: { Meant → Self };

    ghost limit: { ℕ };

    ghost size: { ℕ };

    ghost words: { Self → List ℕ };

    ghost at: { ℕ → List ℕ → ℕ → Got Meant };

    ghost on: { ℕ → List ℕ → Element → Got Meant };

    ghost list: { ℕ → List ℕ → ℕ → Got (List Meant) };

    // What each `impl` must prove.
    ghost reads: { (d : ℕ) (s : List ℕ) → Reads d s (at d s) (on d s) };

    ghost listed: { (d : ℕ) (s : List ℕ) (p : ℕ) → list d s p ≡ fold_at (each_step snoc (at d s)) (length s) s array [] p };

    ghost wide: { (x : Meant) → length (words (held x)) ≡ size };

    // The member with this head.
    fn read(s: &[u8], e: Element, left: usize) -> Option<(Self, Cursor)>
        ensures { result ≡ read_as held (on left s.now e) };

    // One member more, if there is room.
    fn keep(self, kept: &mut [u64], count: usize)
        requires { limit * size ≤ length kept.old }
        ensures { kept.new ≡ keep_more limit size words kept.old count self };
}

// The members of an array from one of them on.
pub fn list_from<M: Member>(s: &[u8], c: Cursor, left: usize, kept: &mut [u64]) -> Option<Listed>
    requires { length kept.old ≡ M.limit * M.size }
    ensures { list_with result kept.new ≡ list_read M.limit M.size (λ x. M.words (M.held x)) kept.old (M.list left s.now c.at) }
{
    let mut count: usize = 0;
    let mut at = c.at;
    loop {
        let item = im_members::item_at(s, Cursor { at }, tlv_reader::ARRAY);
        match item {
            MemberAt::BadItem => {
                kept.fill(0);
                return NO_LIST;
            }
            MemberAt::Ended(next) => {
                return Some(Listed { count, next });
            }
            MemberAt::Member(e) => {
                let Some(found) = M::read(s, e, left) else {
                    kept.fill(0);
                    return NO_LIST;
                };
                let (x, next) = found;
                x.keep(kept, count);
                count += 1;
                at = next.at;
            }
        }
    }
}

// The members of the array whose head was read.
pub fn list_of<M: Member>(s: &[u8], e: Element, left: usize, kept: &mut [u64]) -> Option<Listed>
    requires { length kept.old ≡ M.limit * M.size }
    ensures { list_with result kept.new ≡ list_read M.limit M.size (λ x. M.words (M.held x)) kept.old (list_on M.at left s.now e) }
{
    if e.kind != tlv_reader::ARRAY {
        kept.fill(0);
        return NO_LIST;
    }
    if left == 0 {
        kept.fill(0);
        return NO_LIST;
    }
    list_from::<M>(s, e.next, left - 1, kept)
}

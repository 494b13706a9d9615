// The lengths that a setting gives a record.
#![tactic(auto, unfolding(crate::specs::Shape::head_len, crate::specs::Shape::mac_len, crate::specs::Shape::inner_len, crate::specs::Shape::most_length, crate::specs::Shape::least))]

ghost use Rattle.std.specs.Prelude.{◌≡◌};
ghost use Rattle.record.specs.Shape.{head_len, mac_len, inner_len, most_length, least};

use crate::reader::Record;
use crate::setting::Setting;

impl Setting {
    pub(crate) fn head_len(self) -> u64
        ensures { result ≡ head_len self }
    {
        if self.has_partial() {
            Record::HEADER
        } else {
            Record::BARE_HEADER
        }
    }

    // At most the longest, so that no sum of lengths can pass a word.
    pub(crate) fn mac_len(self) -> u64
        ensures { result ≡ mac_len self }
    {
        Record::MAC.min(u64::from(self.mac))
    }

    pub(crate) fn inner_len(self) -> u64
        ensures { result ≡ inner_len self }
    {
        Record::INNER
    }

    // The largest Length.
    pub(crate) fn most_length(self) -> u64
        ensures { result ≡ most_length self }
    {
        Record::MOST
    }

    // The least Length.
    pub(crate) fn least(self) -> u64
        ensures { result ≡ least self }
    {
        if self.auth_only() {
            self.mac_len()
        } else {
            self.inner_len() + self.mac_len()
        }
    }
}

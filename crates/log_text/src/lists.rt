//! The list of the replies that a text tells: a small type over a vector, which contracts see as a list.
ghost use Rattle.std.specs.Prelude.{◌≡◌, length};

use crate::SavedReply;
use std::marker::Model;

/// A list of replies with their clients, in the order in which they were taken.
#[derive(Debug, Drop)]
pub struct SavedReplies {
    replies: Vec<SavedReply>,
}

impl Model for SavedReplies {
    ghost use Rattle.std.specs.Prelude.{List};
    ghost use Rattle.log_text.specs.declared.SavedReply.{SavedReply};

    ghost Value = { List SavedReply };

    ghost view = { λ list. list.replies.items };
}

impl SavedReplies {
    /// The list of these; takes no memory.
    pub fn from_vec(replies: Vec<SavedReply>) -> SavedReplies
        ensures { result ≡ replies.items }
    {
        SavedReplies { replies }
    }

    /// Them, in order.
    pub fn as_slice(&self) -> &[SavedReply]
        ensures { result.now ≡ self.now }
    {
        self.replies.as_slice()
    }

    /// How many there are.
    pub fn len(&self) -> usize
        ensures { result ≡ length self.now }
    {
        self.replies.len()
    }

    /// Them again; takes no memory.
    pub fn into_vec(self) -> Vec<SavedReply>
        ensures { result.items ≡ self }
    {
        let SavedReplies { replies } = self;
        replies
    }
}

//! What follows of what a message is.

ghost use Rattle.std.specs.Prelude.{◌≡◌, ◌++◌, ◌+◌, ◌<◌, ◌≤◌, ◌^◌, [], ◌∷◌, ℕ, List, Result, drop, length};
ghost use Rattle.bson_frame.specs.Payload.{IsEnvelope};
ghost use Rattle.bson_message.specs.Messages.{HasHeader, Says};
ghost use Rattle.bson_message.specs.Parts.{AreParts, Part};
ghost use Rattle.bson_message.specs.Replies.{HasReply, IsAnswer, IsMessage, msg_bytes, reply_bytes};
ghost use Rattle.bson_message.specs.Taking.{AreDeclared};
ghost use Rattle.bson_message.specs.declared.fault.Fault.{Fault as AnyFault};
ghost use Rattle.bson_message.specs.declared.message.Body.{Body as AnyBody};
ghost use Rattle.bson_message.specs.declared.message.Header.{Header as AnyHeader};

/// Bytes begin with one message at the most.
pub fn one_message_at_the_front()
    ensures { (a b x y : List ℕ) → AreDeclared a → AreDeclared b → a ++ x ≡ b ++ y → (a ≡ b) × (x ≡ y) }
{}

/// Bytes are one list of sections at the most.
pub fn one_list_of_sections()
    ensures { (bytes : List ℕ) (ps qs : List Part) → AreParts bytes ps → AreParts bytes qs → ps ≡ qs }
{}

/// What `reply` writes is taken as one message with its numbers, and nothing is read of it but the document that was
/// answered, with no flags and no sequence.
pub fn answers_read_as_themselves()
    ensures { (number answers : ℕ) (d : List ℕ) → number < 2 ^ 32 → answers < 2 ^ 32 → IsEnvelope d → length d + 21 ≤ 48000000
        → IsMessage (msg_bytes number answers d) number answers 2013
        × ((said : Result AnyBody AnyFault) → Says (msg_bytes number answers d) 2013 (drop 16 (msg_bytes number answers d)) said → IsAnswer d said) }
{}

/// What `old_reply` writes is taken as one message with its numbers, and is an OP_REPLY without a cursor, whose only
/// document is the one that was answered.
pub fn old_answers_read_as_themselves()
    ensures { (number answers : ℕ) (d : List ℕ) → number < 2 ^ 32 → answers < 2 ^ 32 → IsEnvelope d → length d + 36 ≤ 48000000
        → IsMessage (reply_bytes number answers d) number answers 1
        × HasReply (drop 16 (reply_bytes number answers d)) 8 (0 ∷ 0 ∷ 0 ∷ 0 ∷ 0 ∷ 0 ∷ 0 ∷ 0 ∷ []) 0 (d ∷ []) }
{}

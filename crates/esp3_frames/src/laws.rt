//! Theorems about the definitions. Each function does nothing: its contract is the theorem.
ghost use Rattle.std.specs.Prelude.{◌≡◌, ◌≢◌, ℕ, ◌+◌, ◌<◌, ◌≤◌, List, [], ◌∷◌, ◌++◌, ◌⊎◌};
ghost use Rattle.std.specs.Prelude.{length, take, drop, slice_index, bit_xor, replicate, if◌then◌else◌, Ok, Err};
ghost use Rattle.esp3_frames.specs.Check.{check, crc_after_zeros};
ghost use Rattle.esp3_frames.specs.Packet.{max_data, max_optional_data, max_packet, Packet, IsPacket, OneReading};
ghost use Rattle.esp3_frames.specs.Framing.{Framing, BeginsWithPacket, MayBecomePacket, NeverPacket};
ghost use Rattle.esp3_frames.specs.PacketsAndRest.{front_of, front_after_header, may_begin, packets_and_rest};
ghost use Rattle.esp3_frames.specs.PacketsAndRest.{packets_in, rest_of};
ghost use Rattle.esp3_frames.specs.PacketsAndRest.Front.{Never, Partial, Whole};
ghost use Rattle.esp3_frames.specs.Outcome.{header_of};
ghost use Rattle.esp3_frames.specs.declared.limits.TheConstants.{MAX_DATA, MAX_OPTIONAL_DATA, MAX_PACKET};
ghost use Rattle.esp3_frames.specs.declared.packet.Header.{Header};
ghost use Rattle.esp3_frames.specs.declared.packet.HeaderFault.{HeaderFault};

/// The limits of the code are those of the definitions.
pub fn limits_agree()
    ensures data { MAX_DATA ≡ max_data }
    ensures optional_data { MAX_OPTIONAL_DATA ≡ max_optional_data }
    ensures packet { MAX_PACKET ≡ max_packet }
{}

/// The CRC of a message with one more byte.
pub fn crc_of_appended_byte()
    ensures { (m : List ℕ) (b : ℕ) → b < 256 → check (m ++ b ∷ []) ≡ check (bit_xor (check m) b ∷ []) }
{}

/// The CRC of a message in two parts: the CRC of the first part, advanced over as many zero bytes as the second part
/// has, joined with the CRC of the second part. A sequence of 127 zero bytes changes no CRC.
pub fn crc_of_concatenation()
    ensures parts { (m w : List ℕ) → check (m ++ w) ≡ bit_xor (crc_after_zeros (check m) (length w)) (check w) }
    ensures zeros { (m : List ℕ) (n : ℕ) → check (m ++ replicate n 0) ≡ crc_after_zeros (check m) n }
    ensures period { (c n : ℕ) → c < 256 → crc_after_zeros c (n + 127) ≡ crc_after_zeros c n }
{}

/// A text is at most one packet, a packet has one text, and no packet is a proper prefix of another.
pub fn one_reading()
    ensures { OneReading }
{}

/// A text begins with a packet, may become one, or never does, and exactly one of the three holds. The first and the
/// third are stable when the text grows; the empty text may become a packet.
pub fn one_front_case_holds()
    ensures decided { (w : List ℕ) → BeginsWithPacket w ⊎ (MayBecomePacket w ⊎ NeverPacket w) }
    ensures apart { (w : List ℕ) → BeginsWithPacket w → MayBecomePacket w → ⊥ }
    ensures empty { MayBecomePacket [] }
    ensures begins_stays { (w t : List ℕ) → BeginsWithPacket w → BeginsWithPacket (w ++ t) }
    ensures never_stays { (w t : List ℕ) → NeverPacket w → NeverPacket (w ++ t) }
{}

/// Each stream has exactly one framing, and its rest may become a packet. A text that may become a packet is its own
/// rest.
pub fn framing_is_unique()
    ensures some { (s : List ℕ) → Framing s (packets_in s) (rest_of s) }
    ensures only { (s r : List ℕ) (ps : List Packet) → Framing s ps r → (ps ≡ packets_in s) × (r ≡ rest_of s) }
    ensures rest { (s : List ℕ) → MayBecomePacket (rest_of s) }
    ensures whole_rest { (w : List ℕ) → MayBecomePacket w → ([] ≡ packets_in w) × (w ≡ rest_of w) }
{}

/// The packets of a stream in two parts are those of the first part, and then those of its rest followed by the second
/// part.
pub fn framing_in_parts()
    ensures packets { (s t : List ℕ) → packets_in (s ++ t) ≡ packets_in s ++ packets_in (rest_of s ++ t) }
    ensures rest { (s t : List ℕ) → rest_of (s ++ t) ≡ rest_of (rest_of s ++ t) }
{}

/// The computed front of a text agrees with the definition. No packet is longer than `max_packet` bytes, and a text
/// that may become one is shorter.
pub fn computed_front_agrees()
    ensures never { (w : List ℕ) → front_of w ≡ Never → NeverPacket w }
    ensures partial { (w : List ℕ) → front_of w ≡ Partial → MayBecomePacket w × (length w < max_packet) }
    ensures whole { (w : List ℕ) (p : Packet) → front_of w ≡ Whole p → let n = length p.body + length p.opt + 7 in
        (n ≤ length w) × (n ≤ max_packet) × IsPacket p (take n w) }
    ensures empty { front_of [] ≡ Partial }
{}

/// The packets and the rest of a text, by its front: a byte is skipped, nothing is decided yet, or there is a packet.
/// Bytes up to the next sync byte are skipped.
pub fn packets_and_rest_by_front()
    ensures never { (w : List ℕ) → front_of w ≡ Never → (0 < length w)
        × (packets_and_rest (drop 1 w) ≡ packets_and_rest w) }
    ensures skipped { (w : List ℕ) (n : ℕ) → n ≤ length w → ((i : ℕ) → i < n → slice_index w i ≢ 0x55) →
        packets_and_rest (drop n w) ≡ packets_and_rest w }
    ensures partial { (w : List ℕ) → front_of w ≡ Partial → packets_and_rest w ≡ record { ready = []; rest = w } }
    ensures whole { (w : List ℕ) (p : Packet) → front_of w ≡ Whole p →
        let more = drop (length p.body + length p.opt + 7) w in
        packets_and_rest w ≡ record { ready = p ∷ packets_in more; rest = rest_of more } }
    ensures one { (p : Packet) (w : List ℕ) → IsPacket p w → packets_in w ≡ p ∷ [] }
{}

/// The front of a text, by its header, or by the part of it that is there if the text has less than six bytes.
pub fn front_by_header()
    ensures short { (b : List ℕ) → length b < 6 → front_of b ≡ (if may_begin b then Partial else Never) }
    ensures bad { (b : List ℕ) (e : HeaderFault) → 6 ≤ length b → header_of (take 6 b) ≡ Err e → front_of b ≡ Never }
    ensures good { (b : List ℕ) (x : Header) → 6 ≤ length b → header_of (take 6 b) ≡ Ok x →
        front_of b ≡ front_after_header x.data_len x.opt_len x.kind (drop 6 b) }
{}

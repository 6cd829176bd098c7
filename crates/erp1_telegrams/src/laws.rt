//! Theorems about the definitions. Each function does nothing: its contract is the theorem.
ghost use Rattle.std.specs.Prelude.{◌≡◌, ℕ, ◌<◌, ◌^◌, ◌↔◌, length, IsTrue, Some, Ok};
ghost use Rattle.esp3_frames.specs.Packet.{Packet};
ghost use Rattle.erp1_telegrams.specs.Telegram.{Telegram, CarriesTelegram, payload_length_fits, telegram_of};
ghost use Rattle.erp1_telegrams.specs.Telegram.{radio_packet};

/// Reading a packet returns the telegram that it carries, and a packet carries at most one.
pub fn telegram_of_packet_is_unique()
    ensures read { (p : Packet) (t : Telegram) → CarriesTelegram p t ↔ (telegram_of p ≡ Ok t) }
    ensures only { (p : Packet) (t u : Telegram) → CarriesTelegram p t → CarriesTelegram p u → t ≡ u }
{}

/// The packet in which a telegram is sent is read as that telegram, except for its dBm, which is sent as 255. The
/// length of the payload fits the RORG, and sender and destination have 32 bits.
pub fn sent_telegram_is_read_back()
    ensures { (t : Telegram) → IsTrue (payload_length_fits t.rorg (length t.payload)) → t.sender < 2 ^ 32
        → t.dest < 2 ^ 32
        → telegram_of (radio_packet t) ≡ Ok (record t { dbm = Some 255 }) }
{}

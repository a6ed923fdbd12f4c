//! The laws that symbols have these numbers. They do nothing. Each function here does nothing, and its contract is a
//! theorem.
ghost use Rattle.std.specs.Prelude.{◌≡◌, ◌∷◌, []};
ghost use Rattle.dsc_symbols.specs.declared.formats.TheConstants as formats;
ghost use Rattle.dsc_symbols.specs.declared.categories.TheConstants as categories;
ghost use Rattle.dsc_symbols.specs.declared.ends.TheConstants as ends;
ghost use Rattle.dsc_symbols.specs.declared.natures.TheConstants as natures;
ghost use Rattle.dsc_symbols.specs.declared.telecommands.TheConstants as telecommands;
ghost use Rattle.dsc_symbols.specs.declared.notices.TheConstants as notices;
ghost use Rattle.dsc_symbols.specs.declared.messages.TheConstants as messages;
ghost use Rattle.dsc_symbols.specs.declared.phasing.TheConstants as phasing;
ghost use Rattle.dsc_symbols.specs.declared.last_digits.TheConstants as last_digits;
ghost use Rattle.dsc_symbols.specs.declared.sets.TheConstants as sets;

/// The law that the format specifiers have these numbers (ITU-R M.493, format specifier).
pub fn format_numbers()
    ensures distress { formats.DISTRESS ≡ 112 }
    ensures all_ships { formats.ALL_SHIPS ≡ 116 }
    ensures area { formats.AREA ≡ 102 }
    ensures group { formats.GROUP ≡ 114 }
    ensures individual { formats.INDIVIDUAL ≡ 120 }
{}

/// The law that the categories have these numbers (ITU-R M.493, category).
pub fn category_numbers()
    ensures distress { categories.DISTRESS ≡ 112 }
    ensures routine { categories.ROUTINE ≡ 100 }
    ensures safety { categories.SAFETY ≡ 108 }
    ensures urgency { categories.URGENCY ≡ 110 }
    ensures below_distress { sets.BELOW_DISTRESS ≡ (categories.ROUTINE, categories.ROUTINE) ∷ (categories.SAFETY, categories.SAFETY)
        ∷ (categories.URGENCY, categories.URGENCY) ∷ [] }
{}

/// The law that the ends of sequence have these numbers (ITU-R M.493, end of sequence).
pub fn end_numbers()
    ensures acknowledge_rq { ends.ACKNOWLEDGE_RQ ≡ 117 }
    ensures acknowledge_bq { ends.ACKNOWLEDGE_BQ ≡ 122 }
    ensures eos { ends.EOS ≡ 127 }
    ensures ends { sets.ENDS ≡ (ends.ACKNOWLEDGE_RQ, ends.ACKNOWLEDGE_RQ) ∷ (ends.ACKNOWLEDGE_BQ, ends.ACKNOWLEDGE_BQ)
        ∷ (ends.EOS, ends.EOS) ∷ [] }
    ensures relay_ends { sets.RELAY_ENDS ≡ (ends.ACKNOWLEDGE_RQ, ends.ACKNOWLEDGE_RQ) ∷ (ends.EOS, ends.EOS) ∷ [] }
    ensures test_ends { sets.TEST_ENDS ≡ (ends.ACKNOWLEDGE_RQ, ends.ACKNOWLEDGE_RQ)
        ∷ (ends.ACKNOWLEDGE_BQ, ends.ACKNOWLEDGE_BQ) ∷ [] }
{}

/// The law that the natures of distress have these numbers (ITU-R M.493, nature of distress).
pub fn nature_numbers()
    ensures fire_or_explosion { natures.FIRE_OR_EXPLOSION ≡ 100 }
    ensures flooding { natures.FLOODING ≡ 101 }
    ensures collision { natures.COLLISION ≡ 102 }
    ensures grounding { natures.GROUNDING ≡ 103 }
    ensures listing { natures.LISTING ≡ 104 }
    ensures sinking { natures.SINKING ≡ 105 }
    ensures disabled_and_adrift { natures.DISABLED_AND_ADRIFT ≡ 106 }
    ensures undesignated { natures.UNDESIGNATED ≡ 107 }
    ensures abandoning_ship { natures.ABANDONING_SHIP ≡ 108 }
    ensures piracy { natures.PIRACY ≡ 109 }
    ensures man_overboard { natures.MAN_OVERBOARD ≡ 110 }
    ensures epirb_emission { natures.EPIRB_EMISSION ≡ 112 }
    ensures natures { sets.NATURES ≡ (natures.FIRE_OR_EXPLOSION, natures.MAN_OVERBOARD)
        ∷ (natures.EPIRB_EMISSION, natures.EPIRB_EMISSION) ∷ [] }
{}

/// The law that the first telecommands have these numbers (ITU-R M.493, telecommands).
pub fn telecommand_numbers()
    ensures all_modes { telecommands.ALL_MODES ≡ 100 }
    ensures duplex { telecommands.DUPLEX ≡ 101 }
    ensures polling { telecommands.POLLING ≡ 103 }
    ensures unable_to_comply { telecommands.UNABLE_TO_COMPLY ≡ 104 }
    ensures data { telecommands.DATA ≡ 106 }
    ensures j3e { telecommands.J3E ≡ 109 }
    ensures distress_acknowledgement { telecommands.DISTRESS_ACKNOWLEDGEMENT ≡ 110 }
    ensures distress_relay { telecommands.DISTRESS_RELAY ≡ 112 }
    ensures tty_fec { telecommands.TTY_FEC ≡ 113 }
    ensures tty_arq { telecommands.TTY_ARQ ≡ 115 }
    ensures test { telecommands.TEST ≡ 118 }
    ensures ship_position { telecommands.SHIP_POSITION ≡ 121 }
    ensures firsts { sets.FIRSTS ≡ (telecommands.ALL_MODES, telecommands.DUPLEX)
        ∷ (telecommands.POLLING, telecommands.UNABLE_TO_COMPLY) ∷ (telecommands.DATA, telecommands.DATA)
        ∷ (telecommands.J3E, telecommands.J3E) ∷ (telecommands.TTY_FEC, telecommands.TTY_FEC)
        ∷ (telecommands.TTY_ARQ, telecommands.TTY_ARQ) ∷ (messages.NO_INFORMATION, messages.NO_INFORMATION) ∷ [] }
    ensures comms { sets.COMMS ≡ (telecommands.ALL_MODES, telecommands.DUPLEX) ∷ (telecommands.DATA, telecommands.DATA)
        ∷ (telecommands.J3E, telecommands.J3E) ∷ (telecommands.TTY_FEC, telecommands.TTY_FEC)
        ∷ (telecommands.TTY_ARQ, telecommands.TTY_ARQ) ∷ (messages.NO_INFORMATION, messages.NO_INFORMATION) ∷ [] }
{}

/// The law that the second telecommands have these numbers (ITU-R M.493, telecommands).
pub fn notice_numbers()
    ensures no_reason { notices.NO_REASON ≡ 100 }
    ensures congestion { notices.CONGESTION ≡ 101 }
    ensures busy { notices.BUSY ≡ 102 }
    ensures queue { notices.QUEUE ≡ 103 }
    ensures station_barred { notices.STATION_BARRED ≡ 104 }
    ensures no_operator { notices.NO_OPERATOR ≡ 105 }
    ensures operator_away { notices.OPERATOR_AWAY ≡ 106 }
    ensures equipment_disabled { notices.EQUIPMENT_DISABLED ≡ 107 }
    ensures channel_unusable { notices.CHANNEL_UNUSABLE ≡ 108 }
    ensures mode_unusable { notices.MODE_UNUSABLE ≡ 109 }
    ensures neutral_craft { notices.NEUTRAL_CRAFT ≡ 110 }
    ensures medical_transport { notices.MEDICAL_TRANSPORT ≡ 111 }
    ensures public_call_office { notices.PUBLIC_CALL_OFFICE ≡ 112 }
    ensures facsimile { notices.FACSIMILE ≡ 113 }
    ensures seconds { sets.SECONDS ≡ (notices.NO_REASON, notices.FACSIMILE)
        ∷ (messages.NO_INFORMATION, messages.NO_INFORMATION) ∷ [] }
{}

/// The law that the last two digits of symbols have these numbers (this project's profile).
pub fn last_digits()
    ensures formats { last_digits.FORMATS ≡ 12 ∷ 16 ∷ 14 ∷ 20 ∷ 2 ∷ [] }
    ensures categories { last_digits.CATEGORIES ≡ 0 ∷ 8 ∷ 10 ∷ 12 ∷ [] }
    ensures alert { last_digits.ALERT ≡ 12 }
    ensures distress { last_digits.DISTRESS ≡ 12 }
    ensures distress_acknowledgement { last_digits.DISTRESS_ACKNOWLEDGEMENT ≡ 10 }
    ensures distress_relay { last_digits.DISTRESS_RELAY ≡ 12 }
{}

/// The law that the characters that mark messages have these numbers (ITU-R M.493, messages).
pub fn message_numbers()
    ensures no_information { messages.NO_INFORMATION ≡ 126 }
    ensures position_follows { messages.POSITION_FOLLOWS ≡ 55 }
    ensures unknown_position { messages.UNKNOWN_POSITION ≡ 99 }
    ensures unknown_time { messages.UNKNOWN_TIME ≡ 88 }
    ensures vhf_channel { messages.VHF_CHANNEL ≡ 90 }
{}

/// The law that the phasing symbols have these numbers (ITU-R M.493, phasing sequence).
pub fn phasing_numbers()
    ensures dx { phasing.DX ≡ 125 }
    ensures rx_7 { phasing.RX_7 ≡ 111 }
    ensures rx_6 { phasing.RX_6 ≡ 110 }
    ensures rx_5 { phasing.RX_5 ≡ 109 }
    ensures rx_4 { phasing.RX_4 ≡ 108 }
    ensures rx_3 { phasing.RX_3 ≡ 107 }
    ensures rx_2 { phasing.RX_2 ≡ 106 }
    ensures rx_1 { phasing.RX_1 ≡ 105 }
    ensures rx_0 { phasing.RX_0 ≡ 104 }
{}

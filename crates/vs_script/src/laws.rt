//! Laws of the grammar: its limits, and worked scripts.
ghost use Rattle.std.specs.Prelude.{◌≡◌, ◌^◌, ◌-◌, Ok, codes};
ghost use Rattle.vs_script.specs.{Examples.{greeting, greeting_says, two_apps, two_apps_say, attack, attack_says, refused_at}, Script.parse_of};
ghost use Rattle.vs_script.specs.declared.{fault.Why.TheVariants.{BadWord, BadNumber, BadHex}, script.{Command.TheVariants.{Play, Run, Hostile}, TheConstants.MAX_SCRIPT}};
ghost use Rattle.vs_script.specs.declared.{script.TheConstants.{MAX_LINE, MAX_EVENTS, MAX_APPS, MAX_INSTRUCTIONS}, number.TheConstants.MAX_DIGITS, words.TheConstants.MAX_BITS};
ghost use Rattle.vs_script.specs.declared.{hex_word.TheConstants.MAX_HEX, outside.TheConstants.{MAX_FILL, MAX_TICK, MAX_ALLOW, MAX_FAIL}, play.TheConstants.MAX_RECV};
ghost use Rattle.vs_script.specs.declared.{app.TheConstants.{MAX_APP_FILL, MAX_APP_RECV}, hostile.TheConstants.{BASE_ALIGN, MAX_BASE, MIN_MEMORY, MAX_MEMORY, MAX_BEFORE}};
ghost use Rattle.vs_script.specs.declared.hostile.TheConstants.{MAX_LOOK};
ghost use Rattle.vs_limits.specs.declared.TheConstants.{GUEST_CID_MIN, GUEST_CID_MAX};

/// The limits of scripts.
pub fn limits()
    ensures script { (MAX_SCRIPT ≡ 1048576) × (MAX_LINE ≡ 4200) × (MAX_EVENTS ≡ 20000) × (MAX_APPS ≡ 64) × (MAX_INSTRUCTIONS ≡ 1000) }
    ensures fields { (MAX_DIGITS ≡ 20) × (MAX_HEX ≡ 4096) × (MAX_BITS ≡ 3) × (MAX_FILL ≡ 65536) × (MAX_RECV ≡ 65536) }
    ensures outside { (GUEST_CID_MIN ≡ 3) × (GUEST_CID_MAX ≡ 2 ^ 32 - 2) × (MAX_TICK ≡ 1000000) × (MAX_ALLOW ≡ 1000000) × (MAX_FAIL ≡ 1000) }
    ensures apps { (MAX_APP_FILL ≡ 1000000) × (MAX_APP_RECV ≡ 1000000) }
    ensures hostile { (BASE_ALIGN ≡ 16) × (MAX_BASE ≡ 2 ^ 62) × (MIN_MEMORY ≡ 4096) × (MAX_MEMORY ≡ 1048576) × (MAX_BEFORE ≡ 10000)
        × (MAX_LOOK ≡ 64) }
{}

/// A script of each command, and texts that are none.
pub fn worked_scripts()
    ensures greeting { parse_of Play greeting ≡ Ok greeting_says }
    ensures two_apps { parse_of Run two_apps ≡ Ok two_apps_say }
    ensures attack { parse_of Hostile attack ≡ Ok attack_says }
    ensures word_by_word { parse_of Play (codes "poll\nsend 0 zz") ≡ refused_at 2 BadNumber }
    ensures odd_digits { parse_of Play (codes "send 1 abc") ≡ refused_at 1 BadHex }
    ensures one_word_more { parse_of Play (codes "#\n\nturn x") ≡ refused_at 3 BadWord }
    ensures no_app { parse_of Run (codes "close\napp") ≡ refused_at 1 BadWord }
    ensures no_memory { parse_of Hostile (codes "rings 8") ≡ refused_at 1 BadWord }
    ensures outside_memory { parse_of Hostile (codes "memory 0 4096\nrings 8\nwrite 4095 0000") ≡ refused_at 3 BadNumber }
{}

// The labels of the code. Its definitions are in specs/, and what follows of them in proofs/.
#![tactic(auto)]

ghost use Rattle.std.specs.Prelude.{◌≡◌};
ghost use Rattle.code.specs.Labels.{built_in};

// Card by card, chips 0 to 8.
const LABELS: [u8; 45] = [
    1, 2, 4, 8, 16, 32, 64, 128, 29, 152, 45, 90, 180, 117, 234, 201, 143, 3, 78, 156, 37, 74, 148,
    53, 106, 212, 181, 10, 20, 40, 80, 160, 93, 186, 105, 210, 153, 47, 94, 188, 101, 202, 137, 15,
    30,
];

// The built-in labels, in order of position.
pub fn labels() -> [u8; 45]
    ensures { result ≡ built_in }
{
    LABELS
}

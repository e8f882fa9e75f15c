// The laws of the definitions. Each function does nothing; its clauses are what the definitions must give.
ghost use Rattle.std.specs.Prelude.{ℕ, ℤ};
ghost use Rattle.coordinate_model.specs.Ring.{Integers, IsCommRing, IsHom};
ghost use Rattle.coordinate_model.specs.Polynomial.{Variable, Polynomial, Polynomials};
ghost use Rattle.coordinate_model.specs.Key.{Key};
ghost use Rattle.coordinate_model.specs.BracketPolynomial.{KeySums, value};
ghost use Rattle.coordinate_model.specs.HomLaws.{Evaluates, Keeps};
ghost use Rattle.coordinate_model.specs.Evaluation.{value_in};
ghost use Rattle.coordinate_model.specs.Placement.{Placement, value_at};
ghost use Rattle.coordinate_model.specs.SyzygyLaws.{SortedBracket, ZeroBracket, NonzeroBracket, ValueOfSorted};
ghost use Rattle.coordinate_model.specs.SyzygyLaws.{SyzygyLaw, SyzygyOfFreePoints, ValueOfSyzygy, ValueOfMultiple};
ghost use Rattle.coordinate_model.specs.SyzygyLaws.{PointsOfSyzygy, PointsOfMultiple};
ghost use Rattle.coordinate_model.specs.SyzygyLaws.{ThreeTerms, ThreeTermsOfFreePoints};
ghost use Rattle.coordinate_model.specs.ObjectLaws.{SortedExtensor, ZeroExtensor, FullExtensor, JoinLaw, LinearJoins};
ghost use Rattle.coordinate_model.specs.ObjectLaws.{JoinBracketOfPoints};
ghost use Rattle.coordinate_model.specs.ObjectLaws.{ShuffleLaw, MeetValue, LinearMeets, SameJoins, SameMeets};
ghost use Rattle.coordinate_model.specs.ObjectLaws.{CombinationOfValues, JoinOfValues, MeetOfValues};
ghost use Rattle.coordinate_model.specs.StartLaws.{StartsOfJoin, StartsOfMeet, StartsOfOn, ValueOfParameter};
ghost use Rattle.coordinate_model.specs.StartLaws.{ZeroEntries, AdditionsOfMultiple};
ghost use Rattle.coordinate_model.specs.Conics.{BracketOfValues, ConicOfValues};
ghost use Rattle.coordinate_model.specs.NormalLaws.{SamePolynomials, SameBracketPolynomials, HasCoefficients};
ghost use Rattle.coordinate_model.specs.NormalLaws.{KeySumLaws, ValueOfSum, ValueOfProduct, MakesBracketPolynomials};
ghost use Rattle.coordinate_model.specs.NormalLaws.{LexicographicOrder, GreatestOfKey, OneKey, Independent};
ghost use Rattle.coordinate_model.specs.PlacementLaws.{ValueOfZero, ValueOfVariable, ValueOfBracket};
ghost use Rattle.coordinate_model.specs.PlacementLaws.{KeepsBrackets, KeepsExtensors, KeepsJoins, KeepsMeets};
ghost use Rattle.coordinate_model.specs.PlacementLaws.{KeepsCombinations, KeepsSixPoint};
ghost use Rattle.coordinate_model.specs.Weights.{ValueOfSpecial, SpecialIsNormal};
ghost use Rattle.coordinate_model.specs.NumberLaws.{PutInNone, PutInBoth, PutInTurn, ValueOfPutIn, IsDegree};
ghost use Rattle.coordinate_model.specs.NumberLaws.{NonzeroProduct, HasLeastNumber, LeastNumberBound, HasLeastNumbers};
ghost use Rattle.coordinate_model.specs.NumberLaws.{LeastNumbersBound, LeastNumbersValue, HasNonzeroPlacement};
ghost use Rattle.coordinate_model.specs.NumberLaws.{ZeroEverywhere, ValueWithoutVariables};

/// Coordinate polynomials are a commutative ring, and equal where every coefficient is.
pub fn polynomials()
    ensures ring { IsCommRing Polynomials }
    ensures same { SamePolynomials }
{}

/// Bracket polynomials are equal where every coefficient is, obey the laws of a ring, and are closed under what is done
/// to them.
pub fn bracket_polynomials()
    ensures same { SameBracketPolynomials }
    ensures ring { KeySumLaws }
    ensures coefficients { (k : Key) → HasCoefficients k }
    ensures made { (d n : ℕ) → MakesBracketPolynomials d n }
{}

/// The value of a bracket polynomial keeps sums and products.
pub fn values()
    ensures sum { ValueOfSum }
    ensures product { ValueOfProduct }
    ensures all { IsHom KeySums Polynomials value }
{}

/// A bracket is its sign times the sorted bracket, and zero exactly where a point comes twice.
pub fn sorted_brackets()
    ensures sorted { SortedBracket }
    ensures zero { ZeroBracket }
    ensures increasing { NonzeroBracket }
    ensures value { ValueOfSorted }
{}

/// The van der Waerden sum is zero: over integers, over coordinate polynomials, of free points, and collected.
pub fn syzygies()
    ensures integers { SyzygyLaw Integers }
    ensures points { SyzygyLaw Polynomials }
    ensures free_points { SyzygyOfFreePoints }
    ensures collected { ValueOfSyzygy }
    ensures multiples { ValueOfMultiple }
{}

/// Syzygies and their multiples are homogeneous: each of their keys has the same points, each as often.
pub fn homogeneous_syzygies()
    ensures collected { PointsOfSyzygy }
    ensures multiples { PointsOfMultiple }
{}

/// The three-term identity of Grassmann and Pluecker.
pub fn three_terms()
    ensures points { ThreeTerms Polynomials }
    ensures free_points { ThreeTermsOfFreePoints }
{}

/// An extensor is its sign times that of the sorted points, and zero where a point comes twice. That of d points is
/// their bracket, at all columns; so is that of three points as objects.
pub fn extensors()
    ensures sorted { SortedExtensor }
    ensures zero { ZeroExtensor }
    ensures brackets { FullExtensor Polynomials }
    ensures placed { JoinBracketOfPoints Integers }
    ensures objects { JoinBracketOfPoints Polynomials }
{}

/// The join of two extensors is the extensor of their points. Joins are linear in each object, and told by its
/// coordinates.
pub fn joins()
    ensures integers { JoinLaw Integers }
    ensures points { JoinLaw Polynomials }
    ensures linear { LinearJoins Polynomials }
    ensures same { SameJoins Polynomials }
{}

/// The shuffle product of two extensors has the coordinates of their meet. Meets are linear in each object, and told by
/// its coordinates.
pub fn meets()
    ensures integers { ShuffleLaw Integers }
    ensures points { ShuffleLaw Polynomials }
    ensures free_points { MeetValue }
    ensures linear { LinearMeets Polynomials }
    ensures same { SameMeets Polynomials }
{}

/// Combinations, joins and meets of values have the coordinates of those objects.
pub fn objects()
    ensures combinations { CombinationOfValues }
    ensures joins { JoinOfValues }
    ensures meets { MeetOfValues }
{}

/// The starts of joins, meets and combinations have the coordinates of those objects, and so they have without the
/// entries that lack a term. The value of a parameter is its variable.
pub fn starts()
    ensures joins { StartsOfJoin }
    ensures meets { StartsOfMeet }
    ensures combinations { StartsOfOn }
    ensures parameters { ValueOfParameter }
    ensures zeros { ZeroEntries }
{}

/// The bracket of three points that are values, and the six-point polynomial of six, have the values of those of their
/// coordinates.
pub fn conics()
    ensures brackets { BracketOfValues }
    ensures six_points { ConicOfValues }
{}

/// The terms that a use adds are its multiple.
pub fn additions()
    ensures { AdditionsOfMultiple }
{}

/// The order of monomials is lexicographic, and the greatest monomial of a standard key's value tells the key.
pub fn greatest_monomials()
    ensures order { LexicographicOrder }
    ensures greatest { GreatestOfKey }
    ensures one { OneKey }
{}

/// A normal bracket polynomial is determined by its value.
pub fn independence()
    ensures { Independent }
{}

/// Values of coordinate polynomials in a ring keep the operations, and so brackets, extensors, joins, meets,
/// combinations, six-point polynomials and values: values that are integers, and values that are polynomials again.
pub fn evaluations()
    ensures integers { (at : Variable → ℤ) → Evaluates Integers at }
    ensures polynomials { (at : Variable → Polynomial) → Evaluates Polynomials at }
    ensures placed { (at : Variable → ℤ) → Keeps Polynomials Integers (value_in Integers at) }
    ensures put_in { (at : Variable → Polynomial) → Keeps Polynomials Polynomials (value_in Polynomials at) }
{}

/// Values at a placement keep the operations of coordinate polynomials.
pub fn placements()
    ensures zero { (at : Placement) → ValueOfZero at }
    ensures variables { (at : Placement) → ValueOfVariable at }
    ensures operations { (at : Placement) → IsHom Polynomials Integers (value_at at) }
{}

/// Values at a placement keep brackets, extensors, joins, meets, combinations and the six-point polynomial.
pub fn placed_objects()
    ensures free_brackets { (at : Placement) → ValueOfBracket at }
    ensures brackets { (at : Placement) → KeepsBrackets at }
    ensures extensors { (at : Placement) → KeepsExtensors at }
    ensures joins { (at : Placement) → KeepsJoins at }
    ensures meets { (at : Placement) → KeepsMeets at }
    ensures combinations { (at : Placement) → KeepsCombinations at }
    ensures six_points { (at : Placement) → KeepsSixPoint at }
{}

/// Numbers that are put in for some of the variables may be put in one after the other, or at once.
pub fn numbers()
    ensures none { PutInNone }
    ensures both { PutInBoth }
    ensures in_turn { PutInTurn }
    ensures value { ValueOfPutIn }
{}

/// Numbers that are put in for some parameters of a bracket polynomial are put in for them in its value, and keep it
/// normal.
pub fn weights()
    ensures value { ValueOfSpecial }
    ensures normal { SpecialIsNormal }
{}

/// The degree in a variable is told by the coefficients, and does not grow where numbers are put in. A
/// polynomial without variables is an integer. A product of polynomials that are not zero is not zero.
pub fn degrees()
    ensures degree { (v : Variable) → (p : Polynomial) → IsDegree v p }
    ensures constant { ValueWithoutVariables }
    ensures product { NonzeroProduct }
{}

/// With the earlier numbers put in, a polynomial that is not zero has a least whole number for each variable with
/// which it stays so, and it is at most the degree. At these numbers its value is not 0.
pub fn least_numbers()
    ensures number { HasLeastNumber }
    ensures bound { LeastNumberBound }
    ensures numbers { HasLeastNumbers }
    ensures bounds { LeastNumbersBound }
    ensures value { LeastNumbersValue }
{}

/// A polynomial that is not zero has a placement at which its value is not 0, where each variable has a whole number
/// from 0 to its degree. So a polynomial with the value 0 at every placement is zero.
pub fn nonzero_placements()
    ensures placement { HasNonzeroPlacement }
    ensures everywhere { ZeroEverywhere }
{}

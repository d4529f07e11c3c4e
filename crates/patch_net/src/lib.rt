// Rule Patches on patches (02, ticket 8): a triangular piece of a triangular surface, the piece curved. Definitions, worked
// patches and the demands as statements stand in specs/; there is no code here.
#![tactic(auto)]
